ghost use Rattle.std.specs.Prelude.{◌≡◌, Bool, if◌then◌else◌};
ghost use Rattle.rv_exec.specs.Arithmetic as meaning;

pub fn flag(test: bool) -> u32
    ensures { result ≡ meaning.flag test }
{
    u32::from(test)
}

#[tactic(auto, unfolding(crate::specs::Arithmetic::sum_of))]
pub fn sum(a: u32, b: u32) -> u32
    ensures { result ≡ meaning.sum_of a b }
{
    a.wrapping_add(b)
}

#[tactic(auto, unfolding(crate::specs::Arithmetic::difference_of))]
pub fn difference(a: u32, b: u32) -> u32
    ensures { result ≡ meaning.difference_of a b }
{
    a.wrapping_sub(b)
}

#[tactic(auto, unfolding(crate::specs::Arithmetic::is_less_signed))]
pub fn is_less_signed(a: u32, b: u32) -> bool
    ensures { result ≡ meaning.is_less_signed a b }
{
    a.cast_signed() < b.cast_signed()
}

#[tactic(auto, unfolding(crate::specs::Arithmetic::shifted_left))]
pub fn shifted_left(a: u32, b: u32) -> u32
    ensures { result ≡ meaning.shifted_left a b }
{
    a << (b & 0x1F)
}

#[tactic(auto, unfolding(crate::specs::Arithmetic::shifted_right))]
pub fn shifted_right(a: u32, b: u32) -> u32
    ensures { result ≡ meaning.shifted_right a b }
{
    a >> (b & 0x1F)
}

#[tactic(auto, unfolding(crate::specs::Arithmetic::shifted_right_signed))]
pub fn shifted_right_signed(a: u32, b: u32) -> u32
    ensures { result ≡ meaning.shifted_right_signed a b }
{
    (a.cast_signed() >> (b & 0x1F)).cast_unsigned()
}

#[tactic(auto, unfolding(crate::specs::Arithmetic::product_of))]
pub fn product(a: u32, b: u32) -> u32
    ensures { result ≡ meaning.product_of a b }
{
    a.wrapping_mul(b)
}

/// The upper 32 bits of a product.
#[tactic(auto, unfolding(crate::specs::Arithmetic::upper))]
fn upper(product: i64) -> u32
    ensures { result ≡ meaning.upper product }
{
    ((product >> 32) as i32).cast_unsigned()
}

#[tactic(auto, unfolding(crate::specs::Arithmetic::product_high_signed))]
pub fn product_high_signed(a: u32, b: u32) -> u32
    ensures { result ≡ meaning.product_high_signed a b }
{
    upper(i64::from(a.cast_signed()) * i64::from(b.cast_signed()))
}

#[tactic(auto, using(crate::proofs::ArithmeticLemmas::mixed_product), unfolding(crate::specs::Arithmetic::product_high_mixed))]
pub fn product_high_mixed(a: u32, b: u32) -> u32
    ensures { result ≡ meaning.product_high_mixed a b }
{
    upper(i64::from(a.cast_signed()) * i64::from(b))
}

#[tactic(auto, unfolding(crate::specs::Arithmetic::product_high))]
pub fn product_high(a: u32, b: u32) -> u32
    ensures { result ≡ meaning.product_high a b }
{
    ((u64::from(a) * u64::from(b)) >> 32) as u32
}

#[tactic(auto, unfolding(crate::specs::Arithmetic::quotient_signed))]
pub fn quotient_signed(a: u32, b: u32) -> u32
    ensures { result ≡ meaning.quotient_signed a b }
{
    if b == 0 {
        u32::MAX
    } else {
        a.cast_signed()
            .wrapping_div(b.cast_signed())
            .cast_unsigned()
    }
}

#[tactic(auto, unfolding(crate::specs::Arithmetic::quotient_of))]
pub fn quotient(a: u32, b: u32) -> u32
    ensures { result ≡ meaning.quotient_of a b }
{
    if b == 0 { u32::MAX } else { a / b }
}

#[tactic(auto, unfolding(crate::specs::Arithmetic::remainder_signed))]
pub fn remainder_signed(a: u32, b: u32) -> u32
    ensures { result ≡ meaning.remainder_signed a b }
{
    if b == 0 {
        a
    } else {
        a.cast_signed()
            .wrapping_rem(b.cast_signed())
            .cast_unsigned()
    }
}

#[tactic(auto, unfolding(crate::specs::Arithmetic::remainder_of))]
pub fn remainder(a: u32, b: u32) -> u32
    ensures { result ≡ meaning.remainder_of a b }
{
    if b == 0 { a } else { a % b }
}
