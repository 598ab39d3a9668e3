//! The words of a command line.
ghost use Rattle.std.specs.Prelude.{◌≡◌, map, option_map, string_bytes};
ghost use Rattle.and_top.specs.Words.{command_of, is_name};
ghost use Rattle.and_top.specs.Names.{named};

/// The three names of a `replay`: of the scenario's file, of the capture's file, and what the names of
/// all files that are written begin with.
#[derive(Debug, Clone, Copy)]
pub struct Names<'a> {
    pub scenario: &'a str,
    pub capture: &'a str,
    pub out: &'a str,
}

/// Whether a word is a name: it is not empty and does not begin with `-`.
fn is_a_name(word: &str) -> bool
    ensures { result ≡ is_name word.now }
{
    match word.as_bytes().first() {
        None => false,
        Some(byte) => *byte != b'-',
    }
}

/// The names that the words give to `replay`, without the program's name, and `None` where they are no
/// command.
pub fn names_of(words: &[String]) -> Option<Names<'_>>
    ensures { option_map named result ≡ command_of (map string_bytes words.now) }
{
    if words.len() != 4 {
        return None;
    }
    let scenario = words[1].as_str();
    let capture = words[2].as_str();
    let out = words[3].as_str();
    if words[0].as_str() == "replay"
        && is_a_name(scenario)
        && is_a_name(capture)
        && is_a_name(out)
    {
        Some(Names {
            scenario,
            capture,
            out,
        })
    } else {
        None
    }
}
