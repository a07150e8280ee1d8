ghost use Rattle.std.specs.Prelude.{◌≡◌, ◌<◌, ◌%◌, OnOk, OnErr};
ghost use Rattle.rv_exec.specs.Bytes as bytes;
ghost use Rattle.rv_exec.specs.declared.event.TrapKind.TheVariants as trap;
ghost use Rattle.rv_exec.specs.Machine.{state, LeadsShown};
ghost use Rattle.rv_exec.specs.Data as meaning;

use crate::action::Size;
use crate::bytes::{loaded, size_of, with_part};
use crate::event::{Buffer, DataRef, TrapKind};
use crate::finish::{compute, go_on};
use crate::memory::Memory;
use crate::state::Core;
use crate::watch::Watch;
use rv_isa::Decoded;

/// A load. A load of a whole word has code of its own, which asks for no size.
#[inline(always)]
pub fn load<M: Memory, W: Watch>(
    core: &mut Core,
    memory: &M,
    watch: &mut W,
    word: u32,
    decoded: &Decoded,
    rd: u8,
    addr: u32,
    size: Size,
    signed: bool,
) -> Result<Option<Buffer>, TrapKind>
    requires sound { M.sound memory.now }
    requires watch { W.sound watch.old }
    requires register { rd < 32 }
    ensures leads { LeadsShown
        (meaning.loads
        (meaning.data_at (M.words memory.now) addr (bytes.size_of size) trap.MisalignedLoad)
        (state core.old (M.words memory.now) (M.buffers memory.now))
        word decoded.now.inst rd addr size signed)
        result (state core.new (M.words memory.now) (M.buffers memory.now))
        (λ e. W.sees watch.old e watch.new) }
    ensures watch { W.sound watch.new }
    ensures unchanged { OnErr result ((core.new ≡ core.old) × (watch.new ≡ watch.old)) }
{
    match size {
        Size::Word => load_sized(
            core,
            memory,
            watch,
            word,
            decoded,
            rd,
            addr,
            Size::Word,
            signed,
        ),
        Size::Byte | Size::Half => load_sized(
            core, memory, watch, word, decoded, rd, addr, size, signed,
        ),
    }
}

#[inline(always)]
fn load_sized<M: Memory, W: Watch>(
    core: &mut Core,
    memory: &M,
    watch: &mut W,
    word: u32,
    decoded: &Decoded,
    rd: u8,
    addr: u32,
    size: Size,
    signed: bool,
) -> Result<Option<Buffer>, TrapKind>
    requires sound { M.sound memory.now }
    requires watch { W.sound watch.old }
    requires register { rd < 32 }
    ensures leads { LeadsShown
        (meaning.loads
        (meaning.data_at (M.words memory.now) addr (bytes.size_of size) trap.MisalignedLoad)
        (state core.old (M.words memory.now) (M.buffers memory.now))
        word decoded.now.inst rd addr size signed)
        result (state core.new (M.words memory.now) (M.buffers memory.now))
        (λ e. W.sees watch.old e watch.new) }
    ensures watch { W.sound watch.new }
    ensures unchanged { OnErr result ((core.new ≡ core.old) × (watch.new ≡ watch.old)) }
{
    let before = data_word(memory, addr, size, TrapKind::MisalignedLoad)?;
    let value = loaded(size, signed, before, addr);
    let access = DataRef {
        addr,
        store: false,
        before,
    };
    compute(core, watch, word, decoded, rd, value, Some(access), None);
    Ok(None)
}

/// A store, in the same way.
#[inline(always)]
pub fn store<M: Memory, W: Watch>(
    core: &mut Core,
    memory: &mut M,
    watch: &mut W,
    word: u32,
    decoded: &Decoded,
    addr: u32,
    size: Size,
    value: u32,
) -> Result<Option<Buffer>, TrapKind>
    requires sound { M.sound memory.old }
    requires watch { W.sound watch.old }
    ensures leads { LeadsShown
        (meaning.stores
        (meaning.data_at (M.words memory.old) addr (bytes.size_of size) trap.MisalignedStore)
        (state core.old (M.words memory.old) (M.buffers memory.old))
        word decoded.now.inst addr size value)
        result (state core.new (M.words memory.new) (M.buffers memory.new))
        (λ e. W.sees watch.old e watch.new) }
    ensures sound { M.sound memory.new }
    ensures watch { W.sound watch.new }
    ensures unchanged { OnErr result ((core.new ≡ core.old) × (memory.new ≡ memory.old) × (watch.new ≡ watch.old)) }
{
    match size {
        Size::Word => store_sized(core, memory, watch, word, decoded, addr, Size::Word, value),
        Size::Byte | Size::Half => store_sized(
            core, memory, watch, word, decoded, addr, size, value,
        ),
    }
}

#[inline(always)]
fn store_sized<M: Memory, W: Watch>(
    core: &mut Core,
    memory: &mut M,
    watch: &mut W,
    word: u32,
    decoded: &Decoded,
    addr: u32,
    size: Size,
    value: u32,
) -> Result<Option<Buffer>, TrapKind>
    requires sound { M.sound memory.old }
    requires watch { W.sound watch.old }
    ensures leads { LeadsShown
        (meaning.stores
        (meaning.data_at (M.words memory.old) addr (bytes.size_of size) trap.MisalignedStore)
        (state core.old (M.words memory.old) (M.buffers memory.old))
        word decoded.now.inst addr size value)
        result (state core.new (M.words memory.new) (M.buffers memory.new))
        (λ e. W.sees watch.old e watch.new) }
    ensures sound { M.sound memory.new }
    ensures watch { W.sound watch.new }
    ensures unchanged { OnErr result ((core.new ≡ core.old) × (memory.new ≡ memory.old) × (watch.new ≡ watch.old)) }
{
    let before = data_word(memory, addr, size, TrapKind::MisalignedStore)?;
    memory.store_word(addr & !3, with_part(size, before, addr, value));
    let access = DataRef {
        addr,
        store: true,
        before,
    };
    go_on(core, watch, word, decoded, Some(access), None);
    Ok(None)
}

/// The word that holds the address of a load or a store.
#[inline(always)]
fn data_word<M: Memory>(
    memory: &M,
    addr: u32,
    size: Size,
    misaligned: TrapKind,
) -> Result<u32, TrapKind>
    requires { M.sound memory.now }
    ensures value { result ≡ meaning.data_at (M.words memory.now) addr (bytes.size_of size) misaligned }
    ensures aligned { OnOk result (addr % bytes.size_of size ≡ 0) }
{
    if addr % size_of(size) != 0 {
        return Err(misaligned);
    }
    memory.load_word(addr & !3).ok_or(TrapKind::Missing)
}
