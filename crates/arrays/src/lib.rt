// Arrays as bytes at a place of a slice: numbers one after another, and a reason.
//
// It rests on copies and littleendian. It promises that each is put as, and read from, exactly the bytes of specs/Arrays.antt, and that nothing is lost on
// either way (specs/Back.antt).
#![tactic(auto)]

ghost use Rattle.std.specs.Prelude.{◌≡◌, ◌+◌, ◌*◌, ◌≤◌, length};
ghost use Rattle.copies.specs.Parts.{put_at};
ghost use Rattle.arrays.specs.Arrays.{numbers_of, values_at, reason_at};

use littleendian::LittleEndian;

// Numbers one after another go into `out` from `at` on. Where they do not all fit there, `out` stays as it is.
pub fn put_all<T: LittleEndian>(out: &mut [u8], at: usize, all: &[T])
    ensures { out.new ≡ put_at out.old at (numbers_of T.WIDTH T.number all.now) }
{
    if at <= out.len() && all.len() <= (out.len() - at) / T::WIDTH {
        for (k, x) in all.iter().enumerate() {
            x.put_le(out, at + k * T::WIDTH);
        }
    }
}

// A reason, in the same way. The contract says its length too, which whoever puts one needs.
pub fn put_reason(out: &mut [u8], at: usize, reason: [u8; 128])
    ensures { (out.new ≡ put_at out.old at reason) × (length reason ≡ 128) }
{
    copies::put(&reason, out, at);
}

// The numbers in the bytes from `i` on, one after another.
pub fn all_at<T: LittleEndian, const N: usize>(b: &[u8], i: usize) -> [T; N]
    requires { i + N * T.WIDTH ≤ length b.now }
    ensures { result ≡ values_at T.WIDTH T.of N i b.now }
{
    std::array::from_fn(
        |k| -> T
            requires { i + k * T.WIDTH + T.WIDTH ≤ length b.now }
        { T::value_at(b, i + k * T::WIDTH) },
    )
}

// The reason in the 128 bytes from `i` on.
pub fn reason_at(b: &[u8], i: usize) -> [u8; 128]
    requires { i + 128 ≤ length b.now }
    ensures { result ≡ reason_at i b.now }
{
    let mut reason = [0u8; 128];
    copies::put(&b[i..i + 128], &mut reason, 0);
    reason
}
