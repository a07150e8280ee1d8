ghost use Rattle.std.specs.Prelude.{◌≡◌, ◌<◌};
ghost use Rattle.hierarchy.specs.Marked.{accesses_memory};
ghost use Rattle.ruu_timing.specs.Class.{is_load, is_store, is_ecall, is_same, number_of, limit_of};

use hierarchy::Widths;
use rv_isa::Class;

pub(crate) fn accesses_memory(class: Class) -> bool
    ensures { result ≡ accesses_memory class }
{
    matches!(class, Class::Load | Class::Store)
}

pub(crate) fn is_load(class: Class) -> bool
    ensures { result ≡ is_load class }
{
    matches!(class, Class::Load)
}

pub(crate) fn is_store(class: Class) -> bool
    ensures { result ≡ is_store class }
{
    matches!(class, Class::Store)
}

pub(crate) fn is_ecall(class: Class) -> bool
    ensures { result ≡ is_ecall class }
{
    matches!(class, Class::Ecall)
}

pub(crate) fn is_same(one: Class, other: Class) -> bool
    ensures { result ≡ is_same one other }
{
    one == other
}

/// How many instructions of a class may issue in a cycle.
pub(crate) fn limit_of(widths: &Widths, class: Class) -> u32
    ensures { result ≡ limit_of widths.now class }
{
    match class {
        Class::Alu => widths.alus,
        Class::Mul => widths.muls,
        Class::Div => widths.divs,
        Class::Load => widths.loads,
        Class::Store => widths.stores,
        Class::Control => widths.branches,
        Class::Ecall => 1,
    }
}

/// The place of a class in a table of all seven.
pub(crate) fn number_of(class: Class) -> usize
    ensures value { result ≡ number_of class }
    ensures within { result < 7 }
{
    match class {
        Class::Alu => 0,
        Class::Mul => 1,
        Class::Div => 2,
        Class::Load => 3,
        Class::Store => 4,
        Class::Control => 5,
        Class::Ecall => 6,
    }
}
