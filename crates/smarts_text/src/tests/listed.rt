// What `--help` says of each key, beside the table of keys.

use crate::HELP;
use crate::keys::{Form, Group, Key, keys};
use predictor::Scheme;
use smarts_base::NoMemory;
use std::alloc::{AllocGlobal, Global};
use std::test::Fail;

fn two_to(log: u8) -> u64 {
    1u64.wrapping_shl(u32::from(log))
}

// What stands in the parentheses behind a key: its default.
fn usual(alloc: Global, key: &Key) -> Result<String, NoMemory> {
    if key.group == Group::Size {
        return Ok(String::from_str(alloc, "required")?);
    }
    let text = match key.form {
        Form::Number(_, _, usual) => format!(in alloc; "{usual}")?,
        Form::Machine(true) => String::from_str(alloc, "ruu")?,
        Form::Machine(false) => String::from_str(alloc, "scalar")?,
        Form::Cache(line_log, sets_log, ways) => {
            let (line, sets) = (two_to(line_log), two_to(sets_log));
            format!(in alloc; "{line}:{sets}:{ways}")?
        }
        Form::Tlb(sets_log, ways) => {
            let sets = two_to(sets_log);
            format!(in alloc; "{sets}:{ways}")?
        }
        Form::Kind(kind) | Form::Kinds(kind) => {
            let scheme = match kind.scheme {
                Scheme::Bimodal => "bimodal",
                Scheme::Gshare => "gshare",
            };
            let (bits, target_log, depth) = (kind.bits, kind.target_log, kind.depth);
            format!(in alloc; "{scheme}:{bits}:{target_log}:{depth}")?
        }
    };
    Ok(text)
}

// What stands between two texts: behind the last place of the one, in front of the next of the other.
fn between<'a>(text: &'a str, start: &str, end: &str) -> Option<&'a str> {
    let (_, behind) = text.rsplit_once(start)?;
    let (found, _) = behind.split_once(end)?;
    Some(found)
}

#[test]
fn help_lists_every_key(rt: HostRuntime) -> Result<(), Fail> {
    let alloc = rt.alloc();
    for key in keys() {
        let name = key.name;
        let start = format!(in alloc; " {name}=")?;
        let Some(entry) = between(HELP, start.as_str(), ")") else {
            return Err(Fail::new("--help lacks a key"));
        };
        let Some((values, defaults)) = entry.split_once('(') else {
            return Err(Fail::new("--help lacks a default"));
        };
        let wanted = usual(alloc, key)?;
        assert!(rt;
            defaults.split(' ').any(|word| word == wanted.as_str()),
            "{name}"
        );
        if let Form::Number(least, most, _) = key.form {
            let range = format!(in alloc; "{least} to {most}")?;
            assert!(rt; values.split_once(range.as_str()).is_some(), "{name}");
        }
    }
    Ok(())
}
