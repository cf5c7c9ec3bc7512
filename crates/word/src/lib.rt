// What a 32-bit word of an encoded grammar stands for.
#![tactic(auto)]

ghost use Rattle.std.specs.Prelude.{◌≡◌};
ghost use Rattle.word.specs.Words.{payload as payload_of, bare as bare_word, heading as heading_word, decoded};

// A symbol of a body (document 01: a letter or a name, each with its number).
#[derive(Clone, Copy)]
pub enum Symbol {
    Terminal(u32),
    Nonterminal(u32),
}

// Invalid: of no kind, or with a payload that its kind does not have.
#[derive(Clone, Copy)]
pub enum Word {
    Heading { nonterminals: u32, terminals: u32 },
    Rule(u32),
    Positive,
    Negative,
    Symbol(Symbol),
    End,
    Invalid,
}

// A word whose kind has no payload.
#[tactic(auto, unfolding(crate::specs::Words::bare))]
fn bare(word: Word, payload: u32) -> Word
    ensures { result ≡ bare_word word payload }
{
    if payload == 0 { word } else { Word::Invalid }
}

#[tactic(auto, unfolding(crate::specs::Words::heading))]
fn heading(payload: u32) -> Word
    ensures { result ≡ heading_word payload }
{
    if payload < 65536 {
        Word::Heading {
            nonterminals: payload % 256,
            terminals: payload / 256,
        }
    } else {
        Word::Invalid
    }
}

fn payload(bits: u32) -> u32
    ensures { result ≡ payload_of bits }
{
    bits % 268435456
}

// Each arm takes the payload for itself: where a caller cuts it further, both cuts are one step.
#[tactic(auto, unfolding(crate::specs::Words::decoded, crate::specs::Words::of_kind))]
pub fn decode(bits: u32) -> Word
    ensures { result ≡ decoded bits }
{
    let kind = bits / 268435456;
    match kind {
        1 => heading(payload(bits)),
        2 => Word::Rule(payload(bits)),
        3 => bare(Word::Positive, payload(bits)),
        4 => bare(Word::Negative, payload(bits)),
        5 => Word::Symbol(Symbol::Terminal(payload(bits))),
        6 => Word::Symbol(Symbol::Nonterminal(payload(bits))),
        7 => bare(Word::End, payload(bits)),
        _ => Word::Invalid,
    }
}
