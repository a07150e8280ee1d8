ghost use Rattle.std.specs.Prelude.{◌≡◌, ◌↔◌, ℕ, None, IsSome, IfOk, OnOk, OnErr};
ghost use Rattle.elf_image.specs.Image.{IsImage};
ghost use Rattle.rv_exec.specs.Event.{IsWellFormed};
ghost use Rattle.rv_exec.specs.Machine.{state};
ghost use Rattle.rv_exec.specs.Memory.{Mapped, word_at};
ghost use Rattle.rv_machine.specs.ProgramMemory.{IsWordAddress};
ghost use Rattle.rv_machine.specs.Machine.{started, machine_after, Advances, AdvancesWith, OnTrap, StandsBefore};
ghost use Rattle.rv_machine.specs.Outcome.{outcome_of, IsOutcome};

use crate::outcome::{MachineFault, Outcome};
use crate::output::append;
use crate::program_memory::ProgramMemory;
use elf_image::Image;
use rv_exec::{Core, Event, Latest, Memory, Nobody, Watch, step_watched};
use rv_isa::Decoder;
use smarts_base::NoMemory;
use std::alloc::Global;
use std::marker::Model;

/// The register with the stack pointer, and where it points at the start: a page below the end of
/// the stack.
const STACK_POINTER: usize = 2;

const STACK_START: u32 = 0x7FFF_F000;

/// The register that a call answers in.
const ANSWER: usize = 10;

/// A machine with all its memory: that of the program with 64 MiB of heap behind it, and 1 MiB of
/// stack below 0x80000000.
#[derive(Debug, Drop)]
pub struct Whole {
    core: Core,
    memory: ProgramMemory,
    decoder: Decoder,
    keep_output: bool,
    /// What the program has written so far, where it is kept.
    output: Vec<u8>,
}

impl Model for Whole {
    ghost use Rattle.rv_machine.specs.Machine.{Machine};
    ghost use Rattle.rv_machine.specs.MachineCodes.{machine_code};

    ghost Value = { Machine };

    ghost coded = { machine_code };

    ghost use Rattle.rv_machine.specs.Whole.{view_of, HasBlocks};

    ghost view = { view_of };

    ghost invariant = { HasBlocks };
}

impl Whole {
    /// The machine before the first instruction of an image. Its output is kept only if that is
    /// asked for.
    #[tactic(auto, unfolding(crate::specs::Start::start_of, crate::specs::Start::start_words))]
    pub fn new(alloc: Global, image: &Image, keep_output: bool) -> Result<Whole, NoMemory>
        ensures { IfOk result (λ whole. whole ≡ started image.now keep_output) }
    {
        let memory = ProgramMemory::new(alloc, image)?;
        let mut regs = [0; 32];
        regs[STACK_POINTER] = STACK_START;
        let core = Core {
            pc: image.entry(),
            regs,
            brk: image.heap_low(),
            heap_low: image.heap_low(),
            exit: None,
        };
        Ok(Whole {
            core,
            memory,
            decoder: Decoder::new(alloc)?,
            keep_output,
            output: Vec::new(alloc),
        })
    }

    /// Executes one instruction. Memory can be wanted only where the output is kept and the
    /// instruction writes to it.
    #[inline(always)]
    pub fn advance(&mut self) -> Result<Event, MachineFault>
        requires { self.old.state.exit ≡ None }
        ensures advances { Advances self.old result self.new }
        ensures well_formed { IfOk result IsWellFormed }
    {
        let mut latest = Latest { event: None };
        match self.advance_watched(&mut latest) {
            Ok(()) => Ok(latest.event.unwrap()),
            Err(fault) => Err(fault),
        }
    }

    /// The same, where an observer is shown the event. At a want of memory it was shown the event of the call.
    // Inlined, so that the event needn't go through memory and what isn't used of it isn't made.
    #[inline(always)]
    pub fn advance_watched<W: Watch>(&mut self, watch: &mut W) -> Result<(), MachineFault>
        requires running { self.old.state.exit ≡ None }
        requires watch { W.sound watch.old }
        ensures advances { AdvancesWith self.old result self.new (λ e. W.sees watch.old e watch.new) }
        ensures watch { W.sound watch.new }
        ensures unchanged { OnTrap result (watch.new ≡ watch.old) }
    {
        let pc = self.core.pc;
        let before = self.core.regs[ANSWER];
        let wrote = match step_watched(&mut self.decoder, &mut self.core, &mut self.memory, watch) {
            Ok(wrote) => wrote,
            Err(trap) => return Err(MachineFault::Trap(trap)),
        };
        let Some(buffer) = wrote else {
            return Ok(());
        };
        if !self.keep_output {
            return Ok(());
        }
        match append(&mut self.output, &self.memory, buffer) {
            Ok(()) => Ok(()),
            Err(NoMemory) => {
                // The call is undone: it has changed nothing else.
                self.core.regs[ANSWER] = before;
                self.core.pc = pc;
                Err(MachineFault::NoMemory)
            }
        }
    }

    /// Runs the program to its end, for at most so many instructions.
    pub fn run(&mut self, budget: u64) -> Result<Outcome, NoMemory>
        requires { self.old.state.exit ≡ None }
        ensures outcome { IfOk result (λ outcome. outcome ≡ outcome_of self.old.state budget) }
        ensures ends { IfOk result (IsOutcome self.old.state budget) }
        ensures machine { OnOk result (self.new ≡ machine_after self.old budget) }
        ensures no_memory { OnErr result (StandsBefore self.old budget self.new) }
    {
        let mut nobody = Nobody {};
        for at in 0..budget {
            match self.advance_watched(&mut nobody) {
                Ok(()) => {}
                Err(MachineFault::Trap(trap)) => return Ok(Outcome::Trapped { at, trap }),
                Err(MachineFault::NoMemory) => return Err(NoMemory),
            }
            match self.core.exit {
                Some(code) => {
                    return Ok(Outcome::Exited {
                        code,
                        length: at + 1,
                    });
                }
                None => {}
            }
        }
        Ok(Outcome::Spent)
    }

    /// The registers.
    pub fn core(&self) -> &Core
        ensures { state result.now self.now.state.words self.now.state.buffers ≡ self.now.state }
    {
        &self.core
    }

    /// The word at an address, which is there exactly where the address is a multiple of 4 and is
    /// mapped.
    pub fn word(&self, addr: u32) -> Option<u32>
        ensures value { result ≡ word_at self.now.state.words addr }
        ensures mapped { (low heap_low : ℕ) → self.now.state.buffers ≡ Mapped low heap_low
            → IsSome result ↔ IsWordAddress low heap_low addr }
    {
        self.memory.load_word(addr)
    }

    /// What the program has written to descriptors 1 and 2 so far. Empty where it is not kept.
    pub fn output(&self) -> &[u8]
        ensures { result.now ≡ self.now.output }
    {
        &self.output
    }

    /// The output, of a machine that is no longer needed.
    pub fn into_output(self) -> Vec<u8>
        ensures { result.items ≡ self.output }
    {
        self.output
    }
}
