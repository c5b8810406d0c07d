// Lines and tokens.
ghost use Rattle.std.specs.Prelude.{◌≡◌, ◌+◌, ◌*◌, ◌≤◌, ◌<◌, ltb, length, drop};
ghost use Rattle.dqbf.specs.Text.{space};
ghost use Rattle.tokens.specs.Lines.{line_length};
ghost use Rattle.tokens.specs.Working.{length_before, leading, Cut};

// How many bytes stand before the first byte b.
fn length_before(bytes: &[u8], b: u8) -> usize
    ensures { result ≡ length_before b bytes.now }
{
    bytes.iter().position(|x| *x == b).unwrap_or(bytes.len())
}

// Whether a block has the byte b: each byte is looked at, so that the processor compares them at once.
fn block_has(block: &[u8], b: u8) -> bool
    ensures { result ≡ ltb (length_before b block.now) (length block.now) }
{
    block.iter().fold(false, |found, x| found | (*x == b))
}

// How many bytes stand in the blocks of sixteen before the first one that has the byte b.
fn blocks_before(bytes: &[u8], b: u8) -> usize
    ensures { (result ≤ length bytes.now) × (length_before b bytes.now ≡ result + length_before b (drop result bytes.now))
        × (result + 16 ≤ length bytes.now → length_before b (drop result bytes.now) < 16) }
{
    let mut before = 0;
    for block in bytes.chunks_exact(16) {
        if block_has(block, b) {
            return before;
        }
        before += block.len();
    }
    before
}

// Where the half begins, of the 2 * n bytes from i on, that has the first byte b.
fn half_with(bytes: &[u8], i: usize, n: usize, b: u8) -> usize
    requires { (i + n ≤ length bytes.now) × (length_before b (drop i bytes.now) < 2 * n) }
    ensures { (result ≤ i + n) × (i + length_before b (drop i bytes.now) ≡ result + length_before b (drop result bytes.now)) × (length_before b (drop result bytes.now) < n) }
{
    if block_has(&bytes[i..i + n], b) {
        i
    } else {
        i + n
    }
}

// Where the first byte b stands, which is one of the sixteen from i on. Halves are chosen and nothing is branched on: the processor could not guess the outcomes.
fn place_in_block(bytes: &[u8], i: usize, b: u8) -> usize
    requires { (i + 16 ≤ length bytes.now) × (length_before b (drop i bytes.now) < 16) }
    ensures { result ≡ i + length_before b (drop i bytes.now) }
{
    let eight = half_with(bytes, i, 8, b);
    let four = half_with(bytes, eight, 4, b);
    let two = half_with(bytes, four, 2, b);
    half_with(bytes, two, 1, b)
}

// The length of the first line of a text, up to its line feed; of the whole text where there is none.
pub fn line_length(text: &[u8]) -> usize
    ensures { result ≡ line_length text.now }
{
    let passed = blocks_before(text, b'\n');
    if text.len() - passed < 16 {
        passed + length_before(&text[passed..], b'\n')
    } else {
        place_in_block(text, passed, b'\n')
    }
}

// How many spaces lead.
fn leading_spaces(bytes: &[u8]) -> usize
    ensures { result ≡ leading space bytes.now }
{
    bytes.iter().position(|x| *x != b' ').unwrap_or(bytes.len())
}

// Where a token stands: from, and up to.
#[derive(Clone, Copy)]
pub struct Token {
    pub from: usize,
    pub to: usize,
}

// The first token at or behind i.
pub fn next_token(line: &[u8], i: usize) -> Token
    requires { i ≤ length line.now }
    ensures { Cut line.now i result }
{
    let from = i + leading_spaces(&line[i..]);
    let to = from + length_before(&line[from..], b' ');
    Token { from, to }
}
