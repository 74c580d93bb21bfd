ghost use Rattle.std.specs.Prelude.{◌≡◌, ◌+◌, ◌<◌, ◌≤◌, IfSome, length};

use memchr::memchr;

/// How the log of a case is given.
#[derive(Clone, Copy, Debug)]
pub enum Form {
    /// The machine's line, and the last, may be wanting.
    Short,
    /// As it stands.
    Exact,
    /// As it stands, without its last newline.
    Cut,
}

/// A case: its name, and the lines of its log.
#[derive(Clone, Copy, Debug)]
pub struct Case<'a> {
    pub form: Form,
    pub name: &'a [u8],
    pub lines: &'a [u8],
}

/// How many bytes the first line has, with its newline where it has one.
pub fn line_len(bytes: &[u8]) -> usize
    ensures some { 0 < length bytes.now → 0 < result }
    ensures within { result ≤ length bytes.now }
{
    match memchr(b'\n', bytes) {
        Some(end) => end + 1,
        None => bytes.len(),
    }
}

/// How many bytes stand before the first line that begins a case.
fn case_len(bytes: &[u8]) -> usize
    ensures { result ≤ length bytes.now }
{
    let mut len = 0;
    while len < bytes.len() && bytes[len] != b'=' {
        let (_, rest) = bytes.split_at(len);
        len += line_len(rest);
    }
    len
}

/// The first case, and what stands behind it. What stands before it is passed over.
pub fn next_case(bytes: &[u8]) -> Option<(Case<'_>, &[u8])>
    ensures { IfSome result (λ p. length p.1.now < length bytes.now) }
{
    let (_, bytes) = bytes.split_at(case_len(bytes));
    if bytes.is_empty() {
        return None;
    }
    let (head, behind) = bytes.split_at(line_len(bytes));
    let (lines, rest) = behind.split_at(case_len(behind));
    let (form, name) = heading(head);
    Some((Case { form, name, lines }, rest))
}

/// The form and the name of the line that begins a case.
fn heading(head: &[u8]) -> (Form, &[u8]) {
    let head = without_newline(head);
    match head {
        [b'=', b' ', name @ ..] => (Form::Short, name),
        [b'=', b'!', b' ', name @ ..] => (Form::Exact, name),
        [b'=', b'-', b' ', name @ ..] => (Form::Cut, name),
        name => (Form::Exact, name),
    }
}

/// The bytes without a newline at their end.
pub fn without_newline(bytes: &[u8]) -> &[u8] {
    match bytes {
        [front @ .., b'\n'] => front,
        all => all,
    }
}

/// Whether the bytes begin with a word.
pub fn begins_with(bytes: &[u8], word: &[u8]) -> bool {
    if bytes.len() < word.len() {
        return false;
    }
    let (front, _) = bytes.split_at(word.len());
    front == word
}
