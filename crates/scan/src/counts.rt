// How often a byte stands in bytes.
ghost use Rattle.std.specs.Prelude.{◌≤◌, ◌≡◌, count_by, eqb, length};

// Bytes that are counted together: their number fits in a byte.
const BLOCK: usize = 128;

// How often the byte stands in a block.
fn in_block(block: &[u8], byte: u8) -> usize
    requires { length block.now ≤ 128 }
    ensures { result ≡ count_by (eqb byte) block.now }
{
    let mut n: u8 = 0;
    for &b in block {
        if b == byte {
            n += 1;
        }
    }
    usize::from(n)
}

// How often the byte stands in all of them, by blocks: `filter` and `count` over them take 17 times as long, and (a) of bench/ misses its
// goal.
#[tactic(auto, using(crate::proofs::Blocks::in_blocks))]
pub fn count(bytes: &[u8], byte: u8) -> usize
    ensures value { result ≡ count_by (eqb byte) bytes.now }
    ensures at_most { result ≤ length bytes.now }
    ensures bytes_unchanged { bytes.exit.now ≡ bytes.entry.now }
{
    let (blocks, rest) = bytes.as_chunks::<BLOCK>();
    let mut n = 0;
    for block in blocks {
        n += in_block(block, byte);
    }
    n + in_block(rest, byte)
}
