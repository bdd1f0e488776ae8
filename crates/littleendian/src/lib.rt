// Numbers as bytes at a place of a slice: little-endian numbers of four and eight bytes.
//
// It rests on copies. It promises that each is put as, and read from, exactly the bytes of specs/Numbers.antt, and that
// nothing is lost on either way (specs/Back.antt).
#![tactic(auto)]

ghost use Rattle.std.specs.Prelude.{ℕ, ◌≡◌, refl, ◌+◌, ◌<◌, ◌≤◌, length};
ghost use Rattle.std.proofs.Common.{rules};
ghost use Rattle.copies.specs.Parts.{put_at};
ghost use Rattle.littleendian.specs.Numbers.{bytes_of, value_at};

// A number that takes so many bytes, the lowest first.
pub trait LittleEndian: Copy {
    // how many bytes
    ghost WIDTH: { ℕ };

    // what number a value is, and the value of a number
    ghost number: { Self → ℕ };

    ghost of: { ℕ → Self };

    const WIDTH: usize;

    // The number goes into `out` from `at` on. Where it does not fit there, `out` stays as it is.
    fn put_le(self, out: &mut [u8], at: usize)
        ensures { out.new ≡ put_at out.old at (bytes_of WIDTH (number self)) };

    // The number in the bytes from `i` on.
    fn value_at(b: &[u8], i: usize) -> Self
        requires { i + WIDTH ≤ length b.now }
        ensures { result ≡ of (value_at WIDTH i b.now) };

    // no number takes no bytes, and a value is that of its number
    ghost some: { 0 < WIDTH };

    ghost had_back: { (x : Self) → of (number x) ≡ x };
}

// The two impls differ in a size alone, but no array's length may be computed from WIDTH.
impl LittleEndian for u32 {
    ghost WIDTH = { 4 };

    ghost number = { λ x. x };

    ghost of = { λ n. n };

    const WIDTH: usize = 4;

    fn put_le(self, out: &mut [u8], at: usize) {
        let four = self.to_le_bytes();
        copies::put(&four, out, at);
    }

    fn value_at(b: &[u8], i: usize) -> u32 {
        u32::from_le_bytes([b[i], b[i + 1], b[i + 2], b[i + 3]])
    }

    ghost some = { Prim.search rules };

    ghost had_back = { λ x. refl };
}

impl LittleEndian for u64 {
    ghost WIDTH = { 8 };

    ghost number = { λ y. y };

    ghost of = { λ n. n };

    const WIDTH: usize = 8;

    fn put_le(self, out: &mut [u8], at: usize) {
        let eight = self.to_le_bytes();
        copies::put(&eight, out, at);
    }

    fn value_at(b: &[u8], i: usize) -> u64 {
        let eight = [
            b[i],
            b[i + 1],
            b[i + 2],
            b[i + 3],
            b[i + 4],
            b[i + 5],
            b[i + 6],
            b[i + 7],
        ];
        u64::from_le_bytes(eight)
    }

    ghost some = { Prim.search rules };

    ghost had_back = { λ y. refl };
}
