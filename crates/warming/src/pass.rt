ghost use Rattle.std.specs.Prelude.{◌≡◌, ◌≤◌, ◌<◌, ◌+◌, ◌%◌, ◌^◌, ◌++◌, ◌∷◌, [], ℕ, List, length, All, IfOk, OnOk};
ghost use Rattle.live_points.specs.declared.header.Records.{Records};
ghost use Rattle.live_words.specs.Windows.{window_at, with_window};
ghost use Rattle.live_words.specs.Words.{pairs_of, AreWords};
ghost use Rattle.rv_exec.specs.Event.{IsWellFormed};
ghost use Rattle.rv_exec.specs.Machine.{State};
ghost use Rattle.rv_exec.specs.References.{data_word};
ghost use Rattle.rv_machine.specs.Start.{start_of};
ghost use Rattle.warming.specs.Learning.{AreRecencies, AreUsable, IsNumbered};
ghost use Rattle.warming.specs.Passing.{CanRun, HasFields, IsNoted, IsPassing, begun_point};

use crate::learning::Learner;
use crate::ranges::core_fits;
use elf_image::Image;
use hierarchy::Places;
use live_points::{Images, LivePoint, Records};
use live_words::{Windows, Words};
use recency_record::Snapshot;
use rv_exec::{Core, Event};
use rv_machine::{MachineFault, Whole};
use smarts_base::NoMemory;
use std::alloc::Global;

/// A pass over a run: the machine, what was learnt of its instructions, and the words that were found in windows
/// of them. Windows may overlap. They end in the order in which they start.
#[derive(Debug, Drop)]
pub struct Pass {
    alloc: Global,
    whole: Whole,
    learner: Learner,
    windows: Windows,
    /// How many instructions were done.
    at: u64,
}

/// Notes the words that an instruction found, where a window is open.
#[inline]
fn note(windows: &mut Windows, event: &Event) -> Result<(), NoMemory>
    requires { IsWellFormed event.now }
    ensures { OnOk result (IsNoted windows.old windows.new
        ((event.now.pc, event.now.fetched) ∷ data_word event.now.access)) }
{
    if windows.ended() == windows.started() {
        return Ok(());
    }
    windows.touch(event.pc, event.fetched)?;
    match event.access {
        Some(data) => {
            windows.touch(data.addr - data.addr % 4, data.before)?;
            Ok(())
        }
        None => Ok(()),
    }
}

/// The live-point of a unit whose window starts where the machine stands.
fn point_at(
    core: &Core,
    unit: u32,
    words: Words,
    places: Places<Snapshot>,
    images: Images,
) -> LivePoint
    requires words { AreWords words }
    requires places { AreRecencies places }
    requires images { All IsNumbered images }
    ensures point { result ≡ record {
      unit = unit;
      pc = core.now.pc;
      regs = core.now.regs;
      brk = core.now.brk;
      words = words;
      places = places;
      images = images;
    } }
    ensures fields { HasFields result }
{
    core_fits(core);
    LivePoint {
        unit,
        pc: core.pc,
        regs: core.regs,
        brk: core.brk,
        words,
        places,
        images,
    }
}

impl Pass {
    /// Before the first instruction of an image's program. No window has started.
    pub fn new(alloc: Global, image: &Image, records: &Records) -> Result<Pass, NoMemory>
        requires { AreUsable records.now }
        ensures passing { IfOk result (λ pass. (begins : ℕ → ℕ) → IsPassing (start_of image.now) records.now begins pass) }
        ensures at { IfOk result (λ pass. pass.at ≡ 0) }
        ensures none { IfOk result (λ pass. pass.windows ≡ record { windows = []; ended = 0 }) }
    {
        Ok(Pass {
            alloc,
            whole: Whole::new(alloc, image, false)?,
            learner: Learner::new(alloc, records)?,
            windows: Windows::new(alloc),
            at: 0,
        })
    }

    /// Does the next instruction.
    #[inline]
    pub fn step(&mut self) -> Result<(), NoMemory>
        requires { CanRun self.old (self.old.at + 1) }
        ensures passing { OnOk result ((start : State) (records : Records) (begins : ℕ → ℕ)
            → IsPassing start records begins self.old → IsPassing start records begins self.new) }
        ensures at { OnOk result (self.new.at ≡ self.old.at + 1) }
        ensures count { OnOk result (length self.new.windows.windows ≡ length self.old.windows.windows) }
        ensures ended { OnOk result (self.new.windows.ended ≡ self.old.windows.ended) }
    {
        let event = match self.whole.advance() {
            Ok(event) => event,
            Err(MachineFault::NoMemory) => return Err(NoMemory),
            Err(MachineFault::Trap(_)) => unreachable!(),
        };
        note(&mut self.windows, &event)?;
        self.learner.learn(&event);
        self.at += 1;
        Ok(())
    }

    /// Goes on until so many instructions are done.
    pub fn run_to(&mut self, at: u64) -> Result<(), NoMemory>
        requires order { self.old.at ≤ at }
        requires run { CanRun self.old at }
        ensures passing { OnOk result ((start : State) (records : Records) (begins : ℕ → ℕ)
            → IsPassing start records begins self.old → IsPassing start records begins self.new) }
        ensures at { OnOk result (self.new.at ≡ at) }
        ensures count { OnOk result (length self.new.windows.windows ≡ length self.old.windows.windows) }
        ensures ended { OnOk result (self.new.windows.ended ≡ self.old.windows.ended) }
    {
        for _ in self.at..at {
            self.step()?;
        }
        Ok(())
    }

    /// Starts a window at the next instruction. Answers the live-point of its unit, but for the words, which are
    /// found up to the window's end.
    pub fn start(&mut self, unit: u32) -> Result<LivePoint, NoMemory>
        requires few { length self.old.windows.windows + 1 < 2 ^ 32 }
        requires least { 1 ≤ length self.old.learner.images }
        requires most { length self.old.learner.images ≤ 4 }
        ensures point { IfOk result (λ point. point ≡ begun_point unit self.old) }
        ensures fields { IfOk result HasFields }
        ensures window { OnOk result (self.new ≡ record self.old { windows = with_window self.old.windows }) }
    {
        let places = self.learner.snapshots()?;
        let images = self.learner.images()?;
        self.windows.start()?;
        let words = Words::from_rising(Vec::new(self.alloc));
        Ok(point_at(self.whole.core(), unit, words, places, images))
    }

    /// Ends the window that started first of those that haven't ended. Answers the words that it found.
    pub fn end(&mut self) -> Result<Words, NoMemory>
        requires { self.old.windows.ended < length self.old.windows.windows }
        ensures words { IfOk result (λ words. words ≡ pairs_of (window_at self.old.windows self.old.windows.ended)) }
        ensures are { IfOk result AreWords }
        ensures window { OnOk result (self.new
            ≡ record self.old { windows = record self.old.windows { ended = self.old.windows.ended + 1 } }) }
    {
        let words = self.windows.words(self.windows.ended())?;
        let _pairs = words.as_slice();
        self.windows.end();
        Ok(words)
    }
}
