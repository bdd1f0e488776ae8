// Bytes put into a part of a slice: a copy, and zeros.
//
// It rests on choices. It promises that a part that lies within the slice is replaced, that nothing else of the
// slice changes, and that nothing changes where the part does not lie within it (specs/Parts.antt).
//
// A large copy goes through four pages at once, a piece of each in turn. The library's copy reads one stream, which leaves a memory that
// no cache holds waiting; several streams keep it busy. The pieces only ever make `dst` agree with `src` in more places, so their
// order does not matter to the promise (specs/Copied.antt).
#![tactic(auto)]

ghost use Rattle.std.specs.Prelude.{◌+◌, ◌≤◌, ◌≡◌, length};
ghost use Rattle.copies.specs.Parts.{put_at, zeros};
ghost use Rattle.copies.specs.Copied.{CopiedPart, CopiedFronts, front};

// Into so many bytes several streams are faster: less than that stays in the caches, where one stream is.
const LARGE: usize = 4194304;
// The bytes of four pages.
const FOUR_PAGES: usize = 16384;

// In the next five functions `src` and `dst` stay two parameters. A struct of both is no plainer: each of its methods would promise too that they are the slices they were.

// `count` bytes of `src` from `at` on go to the same place of `dst`.
fn copy_part(src: &[u8], dst: &mut [u8], at: usize, count: usize)
    requires { (at + count ≤ length src.now) × (length src.now ≤ length dst.old) }
    ensures { CopiedPart src.now dst.old dst.new at count }
{
    dst[at..at + count].copy_from_slice(&src[at..at + count]);
}

// 256 bytes from `at` on in each of four pages. Four calls and no loop: a must-fail edit changes one of them (copy_four_misses_a_page).
fn copy_four(src: &[u8], dst: &mut [u8], at: usize)
    requires { (at + 12544 ≤ length src.now) × (length src.now ≤ length dst.old) }
    ensures { CopiedFronts src.now dst.old dst.new at 256 }
{
    copy_part(src, dst, at, 256);
    copy_part(src, dst, at + 4096, 256);
    copy_part(src, dst, at + 8192, 256);
    copy_part(src, dst, at + 12288, 256);
}

// The four pages from `at` on, whose pieces take turns.
fn copy_pages(src: &[u8], dst: &mut [u8], at: usize)
    requires { (at + 16384 ≤ length src.now) × (length src.now ≤ length dst.old) }
    ensures { CopiedPart src.now dst.old dst.new at 16384 }
{
    for k in 0..16 {
        copy_four(src, dst, at + 256 * k);
    }
}

// All of `src` goes to the front of `dst`, four pages at a time.
fn copy_large(src: &[u8], dst: &mut [u8])
    requires { length src.now ≤ length dst.old }
    ensures { dst.new ≡ front src.now dst.old }
{
    let fours = src.len() / FOUR_PAGES;
    for k in 0..fours {
        copy_pages(src, dst, FOUR_PAGES * k);
    }
    let at = FOUR_PAGES * fours;
    copy_part(src, dst, at, src.len() - at);
}

// All of `src` goes to the front of `dst`, the faster way.
fn copy_all(src: &[u8], dst: &mut [u8])
    requires { length src.now ≤ length dst.old }
    ensures { dst.new ≡ front src.now dst.old }
{
    if (src.len() < FOUR_PAGES) | (dst.len() < LARGE) {
        dst[..src.len()].copy_from_slice(src);
    } else {
        copy_large(src, dst);
    }
}

// All of `src` goes into `dst` from `place` on. Where it does not fit there, `dst` stays as it is.
pub fn put(src: &[u8], dst: &mut [u8], place: usize)
    ensures { dst.new ≡ put_at dst.old place src.now }
{
    if src.len() <= dst.len() && place <= dst.len() - src.len() {
        copy_all(src, &mut dst[place..]);
    }
}

// `count` zeros go into `dst` from `place` on. Where they do not fit there, `dst` stays as it is.
pub fn put_zeros(count: usize, dst: &mut [u8], place: usize)
    ensures { dst.new ≡ put_at dst.old place (zeros count) }
{
    if count <= dst.len() && place <= dst.len() - count {
        dst[place..place + count].fill(0);
    }
}
