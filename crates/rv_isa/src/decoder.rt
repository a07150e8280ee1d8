ghost use Rattle.std.specs.Prelude.{◌≡◌, true, false, Some, None, IfSome, IfNone, vec_len};
ghost use Rattle.rv_isa.specs.Table.{IsWordOf, IsEncodable};
ghost use Rattle.rv_isa.specs.Decoding.{decode_of};
ghost use Rattle.rv_isa.specs.Props.{word_of_prop};

use crate::decoded::Decoded;
use crate::decoding::decode;
use crate::encoding::encode;
use crate::inst::Inst;
use std::alloc::{AllocError, Global};

/// How many words are remembered: one for each place of 16 KiB of code.
const SLOTS: usize = 4096;

const WORD_SIZE: u32 = 4;

/// Decodes words, and remembers what they stand for. A word that comes again from the same address
/// is looked up.
///
/// What is remembered is a fact about a word, and it is used only where the same word comes again.
/// So it stays true whatever is written to memory, and for any number of machines.
#[derive(Debug, Drop)]
pub struct Decoder {
    entries: Vec<Entry>,
    ghost full: { vec_len entries ≡ 4096 },
}

/// A word that stands for an instruction.
#[derive(Clone, Copy, Debug)]
struct Entry {
    word: u32,
    decoded: Decoded,
    ghost is_word: { IsWordOf word decoded.inst } by { word_of_prop word decoded.inst },
}

impl Decoder {
    /// A decoder that remembers nothing of use yet.
    pub fn new(alloc: Global) -> Result<Decoder, AllocError> {
        let entry = Entry {
            word: encode(&Inst::Ecall),
            decoded: Decoded::of(Inst::Ecall),
        };
        let mut entries = Vec::with_capacity(alloc, SLOTS)?;
        entries.resize(SLOTS, entry)?;
        Ok(Decoder { entries })
    }

    /// The instruction that a word stands for, with its roles. `None` is any word that is not in the
    /// table. The address of the word says only where to look.
    #[tactic(auto, using(crate::proofs::Rows::decode_of_word, crate::proofs::Ranges::in_range))]
    #[inline(always)]
    pub fn decode(&mut self, addr: u32, word: u32) -> Option<Decoded>
        ensures value { IfSome result (λ d. decode_of word ≡ Some d.inst) }
        ensures in_range { IfSome result (λ d. IsEncodable d.inst) }
        ensures not_in_table { IfNone result (decode_of word ≡ None) }
    {
        let entry = &mut self.entries[(addr / WORD_SIZE) as usize % SLOTS];
        if entry.word != word && !learn(entry, word) {
            return None;
        }
        Some(entry.decoded)
    }
}

/// Decodes a word into an entry, and tells whether it stands for an instruction.
#[cold]
#[inline(never)]
fn learn(entry: &mut Entry, word: u32) -> bool
    ensures learned { result ≡ true → entry.new.word ≡ word }
    ensures not_in_table { result ≡ false → decode_of word ≡ None }
{
    let Some(inst) = decode(word) else {
        return false;
    };
    *entry = Entry {
        word,
        decoded: Decoded::of(inst),
    };
    true
}
