//! Cuts of a line.
ghost use Rattle.std.specs.Prelude.{◌≡◌, ◌==◌, ◌∷◌, ◌++◌, MatchOption, option_copied};
ghost use Rattle.c25_asm.specs.Cuts as cuts;
ghost use Rattle.c25_asm.specs.Cuts.{before, behind, Lacks, PassesFirst};

fn is_blank(byte: u8) -> bool
    ensures { result ≡ cuts.is_blank byte }
{
    byte == b' ' || byte == b'\t'
}

// What stands before the first byte of a kind, and what stands behind it.
fn front_until(text: &[u8], mark: u8) -> Option<(&[u8], &[u8])>
    ensures { MatchOption result
        (Lacks (λ b. b == mark) text.now)
        (λ found. Lacks (λ b. b == mark) found.0.now × (text.now ≡ found.0.now ++ mark ∷ found.1.now)) }
{
    let end = text.iter().position(|byte| *byte == mark)?;
    Some((&text[..end], &text[end + 1..]))
}

// What stands before the first blank, and the rest from there on.
fn front_until_blank(text: &[u8]) -> (&[u8], &[u8])
    ensures { Lacks cuts.is_blank result.0.now × PassesFirst cuts.is_blank result.1.now × (text.now ≡ result.0.now ++ result.1.now) }
{
    match text.iter().position(|byte| is_blank(*byte)) {
        Some(end) => text.split_at(end),
        None => text.split_at(text.len()),
    }
}

/// What stands before the first byte of a kind, or all where there is none, and what stands behind it, where there is one.
pub(crate) fn cut(text: &[u8], mark: u8) -> (&[u8], Option<&[u8]>)
    ensures front { result.0.now ≡ before (λ b. b == mark) text.now }
    ensures back { option_copied result.1 ≡ behind (λ b. b == mark) text.now }
{
    match front_until(text, mark) {
        Some((front, back)) => (front, Some(back)),
        None => (text, None),
    }
}

// The text without the blanks in front.
fn behind_blanks(text: &[u8]) -> &[u8]
    ensures { result.now ≡ cuts.behind_blanks text.now }
{
    let mut rest = text;
    while let [b' ' | b'\t', more @ ..] = rest {
        rest = more;
    }
    rest
}

// The text without the blanks at the end.
fn before_blanks(text: &[u8]) -> &[u8]
    ensures { result.now ≡ cuts.before_blanks text.now }
{
    let mut rest = text;
    while let [front @ .., b' ' | b'\t'] = rest {
        rest = front;
    }
    rest
}

/// What a line says, without its comment and without the blanks at both ends.
pub(crate) fn statement(line: &[u8]) -> &[u8]
    ensures { result.now ≡ cuts.statement line.now }
{
    let (text, _) = cut(line, b';');
    before_blanks(behind_blanks(text))
}

/// The first word of a statement, and what stands behind the blanks that follow it.
pub(crate) fn cut_head(text: &[u8]) -> (&[u8], &[u8])
    ensures head { result.0.now ≡ cuts.head_word text.now }
    ensures rest { result.1.now ≡ cuts.behind_head text.now }
{
    let (head, rest) = front_until_blank(text);
    (head, behind_blanks(rest))
}

/// The first operand, and what stands behind its comma, where there is one.
pub(crate) fn cut_operand(text: &[u8]) -> (&[u8], Option<&[u8]>)
    ensures first { result.0.now ≡ cuts.first_operand text.now }
    ensures more { option_copied result.1 ≡ cuts.more_operands text.now }
{
    cut(text, b',')
}

/// What stands before the colon at the end, where there is one.
pub(crate) fn before_colon(text: &[u8]) -> Option<&[u8]>
    ensures { option_copied result ≡ cuts.before_colon text.now }
{
    match text {
        [name @ .., b':'] => Some(name),
        _ => None,
    }
}
