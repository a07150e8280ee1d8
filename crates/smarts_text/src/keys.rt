ghost use Rattle.std.specs.Prelude.{◌≡◌, map, option_map};
ghost use Rattle.std.specs.List.{find, list_any};
ghost use Rattle.smarts_text.specs.Keys.{form_in, is_key, is_same, key_of, keys};

use predictor::{PredictorKind, Scheme};

/// What the values of a key are.
#[derive(Clone, Copy, Debug, PartialEq, Eq)]
pub enum Form {
    /// A number: the least, the greatest and the default.
    Number(u64, u64, u64),
    /// `ruu` or `scalar`: whether the default is `ruu`.
    Machine(bool),
    /// A cache, `line:sets:ways`: of the default, the logarithms to base 2 of line and sets, and the
    /// ways.
    Cache(u8, u8, u8),
    /// A TLB, `sets:ways`: of the default, the logarithm to base 2 of the sets, and the ways.
    Tlb(u8, u8),
    /// A predictor, `scheme:bits:target_log:depth`: the default.
    Kind(PredictorKind),
    /// One to four predictors with commas between: the default, which is one.
    Kinds(PredictorKind),
}

/// A group of keys, of which a command has every one or none.
#[derive(Clone, Copy, Debug, PartialEq, Eq)]
pub enum Group {
    /// Which units of a run are measured, and in which order.
    Design,
    /// The most instructions of a run.
    Budget,
    /// When the sample is large enough.
    Test,
    /// How many workers there are.
    Workers,
    Caches,
    /// The predictor of a processor.
    Predictor,
    /// Those that a library is made for.
    Predictors,
    /// The machine that is timed, its widths and its latencies.
    Timing,
    /// The size of a generated program.
    Size,
}

/// A key: its name, the group that it stands in, and what its values are.
#[derive(Clone, Copy, Debug)]
pub struct Key {
    pub name: &'static str,
    pub group: Group,
    pub form: Form,
}

// A constant can call no function.
macro_rules! key {
    ($name:expr, $group:ident, $form:expr) => {
        Key {
            name: $name,
            group: Group::$group,
            form: $form,
        }
    };
}

pub const UNIT: Key = key!("unit", Design, Form::Number(16, 10_000, 1000));

pub const WARM: Key = key!("warm", Design, Form::Number(0, 100_000, 2000));

pub const EVERY: Key = key!("every", Design, Form::Number(1, 1_000_000, 100));

pub const OFFSET: Key = key!("offset", Design, Form::Number(0, 999_999, 0));

pub const SEED: Key = key!(
    "seed",
    Design,
    Form::Number(0, 1_000_000_000_000_000_000, 1)
);

pub const BUDGET: Key = key!("budget", Budget, Form::Number(1, 1 << 36, 1_000_000_000));

pub const MIN: Key = key!("min", Test, Form::Number(2, 65_536, 30));

pub const Z: Key = key!("z", Test, Form::Number(1, 4000, 3000));

pub const ERROR: Key = key!("error", Test, Form::Number(1, 5000, 300));

pub const WORKERS: Key = key!("workers", Workers, Form::Number(1, 64, 1));

pub const MACHINE: Key = key!("machine", Timing, Form::Machine(true));

pub const L1I: Key = key!("l1i", Caches, Form::Cache(6, 6, 4));

pub const L1D: Key = key!("l1d", Caches, Form::Cache(6, 6, 4));

pub const L2: Key = key!("l2", Caches, Form::Cache(6, 9, 8));

pub const ITLB: Key = key!("itlb", Caches, Form::Tlb(3, 4));

pub const DTLB: Key = key!("dtlb", Caches, Form::Tlb(4, 4));

const USUAL_KIND: PredictorKind = PredictorKind {
    scheme: Scheme::Gshare,
    bits: 12,
    target_log: 9,
    depth: 8,
};

pub const PREDICTOR: Key = key!("predictor", Predictor, Form::Kind(USUAL_KIND));

pub const PREDICTORS: Key = key!("predictor", Predictors, Form::Kinds(USUAL_KIND));

pub const FETCH: Key = key!("fetch", Timing, Form::Number(1, 8, 4));

pub const DISPATCH: Key = key!("dispatch", Timing, Form::Number(1, 8, 4));

pub const ISSUE: Key = key!("issue", Timing, Form::Number(1, 8, 4));

pub const RETIRE: Key = key!("retire", Timing, Form::Number(1, 8, 4));

pub const QUEUE: Key = key!("queue", Timing, Form::Number(1, 32, 8));

pub const RUU: Key = key!("ruu", Timing, Form::Number(4, 256, 32));

pub const LSQ: Key = key!("lsq", Timing, Form::Number(2, 128, 16));

pub const PENALTY: Key = key!("penalty", Timing, Form::Number(1, 64, 6));

pub const ALUS: Key = key!("alus", Timing, Form::Number(1, 8, 4));

pub const MULS: Key = key!("muls", Timing, Form::Number(1, 8, 1));

pub const DIVS: Key = key!("divs", Timing, Form::Number(1, 8, 1));

pub const LOADS: Key = key!("loads", Timing, Form::Number(1, 8, 2));

pub const STORES: Key = key!("stores", Timing, Form::Number(1, 8, 1));

pub const BRANCHES: Key = key!("branches", Timing, Form::Number(1, 8, 1));

pub const MULLAT: Key = key!("mullat", Timing, Form::Number(1, 16, 3));

pub const DIVLAT: Key = key!("divlat", Timing, Form::Number(1, 64, 20));

pub const L1LAT: Key = key!("l1lat", Timing, Form::Number(1, 16, 2));

pub const FWDLAT: Key = key!("fwdlat", Timing, Form::Number(1, 16, 1));

pub const L2LAT: Key = key!("l2lat", Timing, Form::Number(1, 100, 10));

pub const MEMLAT: Key = key!("memlat", Timing, Form::Number(1, 1000, 100));

pub const TLBLAT: Key = key!("tlblat", Timing, Form::Number(0, 200, 30));
// The default is never read: `demo` without a size is at fault.
pub const SIZE: Key = key!("size", Size, Form::Number(1, 1_000_000, 1));

/// Every key.
#[tactic(auto, unfolding(crate::specs::Keys::keys))]
pub fn keys() -> &'static [Key]
    ensures { map key_of result.now ≡ keys }
{
    &[
        UNIT, WARM, EVERY, OFFSET, SEED, BUDGET, MIN, Z, ERROR, WORKERS, MACHINE, L1I, L1D, L2,
        ITLB, DTLB, PREDICTOR, PREDICTORS, FETCH, DISPATCH, ISSUE, RETIRE, QUEUE, RUU, LSQ,
        PENALTY, ALUS, MULS, DIVS, LOADS, STORES, BRANCHES, MULLAT, DIVLAT, L1LAT, FWDLAT, L2LAT,
        MEMLAT, TLBLAT, SIZE,
    ]
}

fn is_same(one: Group, other: Group) -> bool
    ensures { result ≡ is_same one other }
{
    one == other
}

fn stands_in(key: &Key, groups: &[Group]) -> bool
    ensures { result ≡ list_any (λ g. is_same g key.now.group) groups.now }
{
    groups.iter().any(|&group| is_same(group, key.group))
}

fn form_among(keys: &[Key], groups: &[Group], name: &str) -> Option<Form>
    ensures { result ≡ option_map (λ key. key.form) (find (λ key. is_key groups.now name.now (key_of key)) keys.now) }
{
    let key = keys
        .iter()
        .find(|key| key.name == name && stands_in(key, groups))?;
    Some(key.form)
}

/// What the values of the key of this name are, where it stands in one of the groups.
pub fn form_of(groups: &[Group], name: &str) -> Option<Form>
    ensures { result ≡ form_in groups.now name.now }
{
    form_among(keys(), groups, name)
}
