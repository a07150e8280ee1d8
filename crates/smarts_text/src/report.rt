ghost use Rattle.std.specs.Prelude.{◌≡◌, ◌<◌, ◌≤◌, ◌++◌, ℕ, List, IfOk, OnOk, codes, string_bytes};
ghost use Rattle.std.specs.Fmt.{decimal};
ghost use Rattle.confidence.specs.Sums.{IsBounded};
ghost use Rattle.smarts_text.specs.Report.{IsReported, report_of, line, digit, four_digits, percent, yes_or_no};

use confidence::{Sums, cpi4, least_error};
use ordered_fold::Ending;
use smarts_base::NoMemory;
use std::alloc::Global;
use std::fmt::Write;

/// The report of a run of `length` instructions with `points` units of `unit` instructions each, of
/// which a sample was measured that ended so and has these sums: seven lines. `z` is that of the test.
#[tactic(auto, unfolding(crate::specs::Report::report_of))]
pub fn report_text(
    alloc: Global,
    length: u64,
    points: u32,
    unit: u32,
    ending: Ending,
    sums: Sums,
    z: u32,
) -> Result<String, NoMemory>
    requires ending { IsReported ending }
    requires bounded { IsBounded sums }
    requires measured { 1 ≤ sums.n }
    requires unit { 1 ≤ unit }
    requires unit_most { unit ≤ 10000 }
    requires z_least { 1 ≤ z }
    requires z_most { z ≤ 4000 }
    ensures { IfOk result (λ text. string_bytes text ≡ report_of length points unit ending sums z) }
{
    let mut out = String::new(alloc);
    add_number(&mut out, "instructions", length)?;
    add_number(&mut out, "points", u64::from(points))?;
    add_number(&mut out, "sampled", u64::from(sums.n))?;
    add_confident(&mut out, ending)?;
    add_number(&mut out, "cycles", sums.s1)?;
    add_cpi(&mut out, cpi4(&sums, unit))?;
    add_error(&mut out, least_error(&sums, z))?;
    Ok(out)
}

fn add_confident(out: &mut String, ending: Ending) -> Result<(), NoMemory>
    ensures { OnOk result (string_bytes out.new ≡ string_bytes out.old ++ line (codes "confident") (yes_or_no ending)) }
{
    let text = match ending {
        Ending::Stopped { .. } => "yes",
        _ => "no",
    };
    add_text(out, "confident", text)
}

fn add_text(out: &mut String, name: &str, text: &str) -> Result<(), NoMemory>
    ensures { OnOk result (string_bytes out.new ≡ string_bytes out.old ++ line name.now text.now) }
{
    writeln!(out, "{name} {text}")?;
    Ok(())
}

fn add_number(out: &mut String, name: &str, value: u64) -> Result<(), NoMemory>
    ensures { OnOk result (string_bytes out.new ≡ string_bytes out.old ++ line name.now (decimal value)) }
{
    writeln!(out, "{name} {value}")?;
    Ok(())
}

#[tactic(auto, using(std::proofs::lemmas::Fmt::decimal_digit))]
fn add_digit(out: &mut String, n: u64) -> Result<(), NoMemory>
    ensures { OnOk result (string_bytes out.new ≡ string_bytes out.old ++ digit n) }
{
    let digit = n % 10;
    write!(out, "{digit}")?;
    Ok(())
}

fn add_cpi(out: &mut String, cpi4: u64) -> Result<(), NoMemory>
    ensures { OnOk result (string_bytes out.new ≡ string_bytes out.old ++ line (codes "cpi") (four_digits cpi4)) }
{
    let whole = cpi4 / 10_000;
    write!(out, "cpi {whole}.")?;
    add_digit(out, cpi4 / 1000)?;
    add_digit(out, cpi4 / 100)?;
    add_digit(out, cpi4 / 10)?;
    add_digit(out, cpi4)?;
    writeln!(out)?;
    Ok(())
}

fn add_error(out: &mut String, error: Option<u32>) -> Result<(), NoMemory>
    ensures { OnOk result (string_bytes out.new ≡ string_bytes out.old ++ line (codes "error") (percent error)) }
{
    let Some(error) = error else {
        return add_text(out, "error", "none");
    };
    let whole = error / 100;
    write!(out, "error {whole}.")?;
    add_digit(out, u64::from(error / 10))?;
    add_digit(out, u64::from(error))?;
    writeln!(out, "%")?;
    Ok(())
}
