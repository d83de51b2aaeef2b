// Bytes and numbers written at the start of a buffer. Behind what is written its rest is lent on, `&mut out[at..]`, which is the form that
// is asked for. Where there is not room for all, as much is written as there is room for. `write!` into a buffer promises nothing of the
// bytes that stand there, and `put` does.
#![tactic(auto)]

ghost use Rattle.std.specs.Prelude.{◌≤◌, ◌≡◌, length};
ghost use Rattle.writer.specs.Written.{numeral, Wrote};

// Puts the bytes at the start of out, and answers how many were put.
#[tactic(auto, using(crate::proofs::Writing::over_put))]
pub fn put(part: &[u8], out: &mut [u8]) -> usize
    ensures wrote { Wrote part.now out.old result out.new }
    ensures part_unchanged { part.exit.now ≡ part.entry.now }
{
    let n = part.len().min(out.len());
    out[..n].copy_from_slice(&part[..n]);
    n
}

// Puts n in decimal at the start of out, and answers how many bytes were put. It has at most 20 digits.
#[tactic(auto, using(crate::proofs::Digits::decimal_numeral, crate::proofs::Digits::numeral_short))]
pub fn put_number(n: usize, out: &mut [u8]) -> usize
    ensures wrote { Wrote (numeral n) out.old result out.new }
    ensures at_most { length (numeral n) ≤ 20 }
{
    let mut digits = [0u8; 20];
    let k = io::decimal(n as u64, &mut digits);
    put(&digits[..k], out)
}
