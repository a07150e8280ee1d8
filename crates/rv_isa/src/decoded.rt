ghost use Rattle.std.specs.Prelude.{◌≡◌};
ghost use Rattle.std.specs.Coded.{Coded-set};
ghost use Rattle.std.proofs.Props.{props};
ghost use Rattle.rv_isa.specs.Roles as roles;

use crate::inst::Inst;
use crate::roles::{Class, class_of, dest, sources};

/// An instruction with its class and registers, so that they are worked out once.
#[derive(Clone, Copy, Debug)]
pub struct Decoded {
    pub inst: Inst,
    pub class: Class,
    /// The register that it reads at the place of rs1, unless it is register 0.
    pub first: Option<u8>,
    /// The register that it reads at the place of rs2, unless it is register 0.
    pub second: Option<u8>,
    /// The register that it writes, unless it is register 0.
    pub dest: Option<u8>,
    pub ghost class_is: { class ≡ roles.class_of inst } by { Coded-set class-code class (roles.class_of inst) },
    pub ghost first_is: { first ≡ (roles.sources_of inst).0 } by { Prim.hlevel props },
    pub ghost second_is: { second ≡ (roles.sources_of inst).1 } by { Prim.hlevel props },
    pub ghost dest_is: { dest ≡ roles.dest_of inst } by { Prim.hlevel props },
}

impl Decoded {
    /// The class and the registers of an instruction.
    #[inline(always)]
    pub fn of(inst: Inst) -> Decoded
        ensures { result.inst ≡ inst }
    {
        let (first, second) = sources(&inst);
        Decoded {
            inst,
            class: class_of(&inst),
            first,
            second,
            dest: dest(&inst),
        }
    }
}
