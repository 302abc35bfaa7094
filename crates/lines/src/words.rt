// The words of a line, which blanks set apart. No `split`, since a command takes the first word and leaves all that stands behind it to its operands.
ghost use Rattle.std.specs.Prelude.{◌≡◌, ◌≤◌, length};
ghost use Rattle.lines.specs.Words.{blank, past_blanks, word_length, first_word, after_word};

// A carriage return counts, so that the line of a file with CR and LF ends like any other.
fn is_blank(c: &u8) -> bool
    ensures { result ≡ blank c.now }
{
    matches!(c, b' ' | b'\t' | b'\r')
}

fn past_blanks(text: &[u8]) -> &[u8]
    ensures { result.now ≡ past_blanks text.now }
{
    let blanks = text.iter().position(|c| !is_blank(c));
    &text[blanks.unwrap_or(text.len())..]
}

fn word_length(text: &[u8]) -> usize
    ensures is { result ≡ word_length text.now }
    ensures within { result ≤ length text.now }
{
    text.iter().position(is_blank).unwrap_or(text.len())
}

// The first word of a text, and what comes behind it. A text of blanks has an empty first word.
pub fn first_word(text: &[u8]) -> (&[u8], &[u8])
    ensures word { result.0.now ≡ first_word text.now }
    ensures behind { result.1.now ≡ after_word text.now }
{
    let start = past_blanks(text);
    start.split_at(word_length(start))
}
