// How a line is cut into words.
ghost use Rattle.std.specs.Prelude.{◌≡◌, ◌≢◌, ◌<◌, ◌≤◌, ℕ, [], length, slice_index, IfOk, MatchResult};
ghost use Rattle.sv_script.specs.Cut.{BeginsWith, IsPart, IsPath, none, one, three, two, words_after, words_of};
ghost use Rattle.sv_script.specs.Outcome.{Gives};

use crate::fault::ScriptFault;

/// The first word of a line, and what follows it: nothing, or a space and the further words.
pub fn first_word(line: &[u8]) -> (&[u8], &[u8])
    requires { IsPart line.now }
    ensures { BeginsWith (words_of line.now) result.0.now result.1.now }
{
    line.split_at(bytes_before(line, b' '))
}

/// That no further words follow.
pub fn none(rest: &[u8]) -> Result<(), ScriptFault>
    ensures { result ≡ none (words_after rest.now) }
{
    if rest.is_empty() {
        Ok(())
    } else {
        Err(ScriptFault::Count)
    }
}

/// The one further word.
pub fn one(rest: &[u8]) -> Result<&[u8], ScriptFault>
    requires { IsPart rest.now }
    ensures value { Gives (λ w. w.now) result (one (words_after rest.now)) }
    ensures path { IfOk result (λ w. IsPath w.now) }
{
    let (word, rest) = next_word(rest)?;
    none(rest)?;
    Ok(word)
}

/// The two further words.
pub fn two(rest: &[u8]) -> Result<(&[u8], &[u8]), ScriptFault>
    requires { IsPart rest.now }
    ensures value { Gives (λ ws. (ws.0.now, ws.1.now)) result (two (words_after rest.now)) }
    ensures paths { IfOk result (λ ws. IsPath ws.0.now × IsPath ws.1.now) }
{
    let (first, rest) = next_word(rest)?;
    let second = one(rest)?;
    Ok((first, second))
}

/// The three further words.
pub fn three(rest: &[u8]) -> Result<(&[u8], &[u8], &[u8]), ScriptFault>
    requires { IsPart rest.now }
    ensures value { Gives (λ ws. (ws.0.now, ws.1.now, ws.2.now)) result (three (words_after rest.now)) }
{
    let (first, rest) = next_word(rest)?;
    let (second, third) = two(rest)?;
    Ok((first, second, third))
}

fn next_word(rest: &[u8]) -> Result<(&[u8], &[u8]), ScriptFault>
    requires { IsPart rest.now }
    ensures { MatchResult result (λ cut. BeginsWith (words_after rest.now) cut.0.now cut.1.now)
        (λ e. (e ≡ ScriptFault.Count) × (words_after rest.now ≡ [])) }
{
    if rest.is_empty() {
        return Err(ScriptFault::Count);
    }
    Ok(first_word(&rest[1..]))
}

/// How many bytes stand before the first of that value.
pub fn bytes_before(bytes: &[u8], stop: u8) -> usize
    ensures within { result ≤ length bytes.now }
    ensures before { (k : ℕ) → k < result → slice_index bytes.now k ≢ stop }
    ensures stop { result < length bytes.now → slice_index bytes.now result ≡ stop }
{
    for (i, b) in bytes.iter().enumerate() {
        if *b == stop {
            return i;
        }
    }
    bytes.len()
}
