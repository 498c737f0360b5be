// How a text is cut into words.
ghost use Rattle.std.specs.Prelude.{◌≡◌, ◌≢◌, ◌<◌, ◌≤◌, ℕ, length, slice_index};
ghost use Rattle.std.specs.List.{position_or_len};
ghost use Rattle.sv_journal.specs.Cut.{ends_word, first_word, next_byte, next_line, next_word, this_word};
ghost use Rattle.sv_journal.specs.Outcome.{Takes};

use crate::refusal::Refusal;

/// Takes the word at the front of a text.
pub fn first_word<'a>(text: &mut &'a [u8]) -> &'a [u8]
    ensures { (result.now, text.new.now) ≡ first_word text.old.now }
{
    let whole: &'a [u8] = *text;
    let (word, rest) = cut_word(whole);
    *text = rest;
    word
}

/// Takes a space and the word behind it.
pub fn next_word<'a>(text: &mut &'a [u8]) -> Result<&'a [u8], Refusal>
    ensures { Takes (λ word. word.now) result text.new.now (next_word text.old.now) }
{
    take_byte(text, b' ')?;
    Ok(first_word(text))
}

/// Takes a space and this word behind it.
pub fn this_word(text: &mut &[u8], word: &[u8]) -> Result<(), Refusal>
    ensures { Takes (λ u. u) result text.new.now (this_word word.now text.old.now) }
{
    let found = next_word(text)?;
    if found != word {
        return Err(Refusal::Grammar);
    }
    Ok(())
}

/// Takes a newline byte.
pub fn next_line(text: &mut &[u8]) -> Result<(), Refusal>
    ensures { Takes (λ u. u) result text.new.now (next_line text.old.now) }
{
    take_byte(text, b'\n')
}

fn take_byte(text: &mut &[u8], byte: u8) -> Result<(), Refusal>
    ensures { Takes (λ u. u) result text.new.now (next_byte byte text.old.now) }
{
    let Some((first, rest)) = text.split_first() else {
        return Err(Refusal::Grammar);
    };
    if *first != byte {
        return Err(Refusal::Grammar);
    }
    *text = rest;
    Ok(())
}

fn cut_word(text: &[u8]) -> (&[u8], &[u8])
    ensures { (result.0.now, result.1.now) ≡ first_word text.now }
{
    text.split_at(word_len(text))
}

fn word_len(text: &[u8]) -> usize
    ensures value { result ≡ position_or_len ends_word text.now }
    ensures within { result ≤ length text.now }
{
    for (i, byte) in text.iter().enumerate() {
        if ends_word(*byte) {
            return i;
        }
    }
    text.len()
}

fn ends_word(byte: u8) -> bool
    ensures { result ≡ ends_word byte }
{
    byte == b' ' || byte == b'\n'
}
