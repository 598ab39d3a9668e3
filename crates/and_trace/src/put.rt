//! Words at the end of a text.
ghost use Rattle.std.specs.Prelude.{◌≡◌, ◌++◌, ◌∷◌, decimal, OnOk};
ghost use Rattle.std.specs.List.{flat_map};
ghost use Rattle.and_trace.specs.Spelling.{spaced};
ghost use Rattle.and_trace.specs.Words.{spelling};

use crate::word::Word;
use and_policy::NoMemory;
use itoa::Buffer;

/// Puts the bytes.
pub(crate) fn put(bytes: &[u8], text: &mut Vec<u8>) -> Result<(), NoMemory>
    ensures { OnOk result (text.new.items ≡ text.old.items ++ bytes.now) }
{
    text.extend_from_slice(bytes).map_err(|_| NoMemory)
}

/// Puts a number, in decimal.
fn put_number(number: u32, text: &mut Vec<u8>) -> Result<(), NoMemory>
    ensures { OnOk result (text.new.items ≡ text.old.items ++ decimal number) }
{
    let mut buffer = Buffer::new();
    put(buffer.format(number).as_bytes(), text)
}

/// Puts a number between two texts.
fn put_around(head: &str, number: u32, tail: &str, text: &mut Vec<u8>) -> Result<(), NoMemory>
    ensures { OnOk result (text.new.items ≡ text.old.items ++ head.now ++ decimal number ++ tail.now) }
{
    put(head.as_bytes(), text)?;
    put_number(number, text)?;
    put(tail.as_bytes(), text)?;
    Ok(())
}

/// Puts a word, with one space before it.
#[tactic(auto, unfolding(crate::specs::Words::spelling))]
fn put_word(word: Word, text: &mut Vec<u8>) -> Result<(), NoMemory>
    ensures { OnOk result (text.new.items ≡ text.old.items ++ spaced word) }
{
    match word {
        Word::Text(key) => {
            put(b" ", text)?;
            put(key.text().as_bytes(), text)?;
        }
        Word::Number(number) => put_around(" ", number, "", text)?,
        Word::AtHost(host) => put_around(" h", host, "", text)?,
        Word::AtGate(gate) => put_around(" g", gate, "", text)?,
        Word::HostWorker { host, index } => {
            put_around(" h", host, ".w", text)?;
            put_number(index, text)?;
        }
        Word::HostCoproc(host) => put_around(" h", host, ".c", text)?,
        Word::GateWorker(gate) => put_around(" g", gate, ".w", text)?,
    }
    Ok(())
}

/// Puts the words, each with one space before it.
pub(crate) fn put_words(words: &[Word], text: &mut Vec<u8>) -> Result<(), NoMemory>
    ensures { OnOk result (text.new.items ≡ text.old.items ++ flat_map spaced words.now) }
{
    for word in words {
        put_word(*word, text)?;
    }
    Ok(())
}
