// A reader of a finished copy: it holds the copy and a place in bytes, hands out the next block as that very part of the copy, and moves
// on by a block, or says that it is at the end.
//
// It rests on choices and pages. It promises for any copy and any place which part is handed out, by its bytes and by where it lies, and
// the next place (specs/Reader.antt); reading on gives the copy's whole blocks in order (specs/Blocks.antt). The plain step over copy and place is
// `block_at` and `place_at`; a reader is an iterator over its blocks, whose `next` takes it apart and calls them, and `first` goes from a plain copy
// through a reader to its first block.
#![tactic(auto)]

ghost use Rattle.std.specs.Prelude.{◌≡◌, length, is_some, IfSome};
ghost use Rattle.std.specs.Iterator.{at_most};
ghost use Rattle.reader.specs.Reader.{more_at, block_at, part_at, place_at, led_to, moved_on, blocks_left};

// The place after the block at a place of a copy of n bytes; none at the end.
pub fn place_at(n: usize, at: usize) -> Option<usize>
    ensures { led_to at result ≡ place_at n at }
{
    let after = at.checked_add(pages::BLOCK)?;
    if after <= n { Some(after) } else { None }
}

// The block at a place, as that part of the copy; at the end the empty part where the copy starts, which is promised too, so it is no Option. What it
// promises is said again of each way to a block: a must-fail edit at each changes one fact there.
pub fn block_at<'a>(copy: &'a [u8], at: usize) -> &'a [u8]
    ensures { (result.now ≡ block_at copy.now at) × (result.ref_ptr ≡ part_at copy.entry.ref_ptr (length copy.now) at) }
{
    match place_at(copy.len(), at) {
        Some(after) => &copy[at..after],
        None => &copy[0..0],
    }
}

#[derive(Clone, Copy)]
pub struct Reader<'a> {
    pub copy: &'a [u8],
    pub at: usize,
}

impl<'a> Reader<'a> {
    // A reader at the start of a copy.
    pub fn start(copy: &'a [u8]) -> Reader<'a>
        ensures { (result.copy ≡ copy.entry) × (result.at ≡ 0) }
    {
        Reader { copy, at: 0 }
    }

    // The block at the reader's place; the empty part at the end.
    pub fn part(self) -> &'a [u8]
        ensures { (result.now ≡ block_at self.entry.copy.now self.entry.at) × (result.ref_ptr ≡ part_at self.entry.copy.ref_ptr (length self.entry.copy.now) self.entry.at) }
    {
        block_at(self.copy, self.at)
    }
}

impl<'a> Iterator for Reader<'a> {
    type Item = &'a [u8];

    // The next block, and the reader after it: at the end no block, and the reader as it was.
    ghost next_gives = { λ r b s. (is_some b ≡ more_at (length r.copy.now) r.at)
        × IfSome b (λ p. p.now ≡ block_at r.copy.now r.at)
        × IfSome b (λ p. p.ref_ptr ≡ part_at r.copy.ref_ptr (length r.copy.now) r.at)
        × (s ≡ moved_on r) };

    ghost remaining = { λ r. at_most (blocks_left (length r.copy.now) r.at) };

    fn next(&mut self) -> Option<&'a [u8]> {
        let block = self.part();
        match place_at(self.copy.len(), self.at) {
            Some(after) => {
                self.at = after;
                Some(block)
            }
            None => None,
        }
    }
}

// The first block of a copy, had through a reader. Whoever calls it needs to know nothing of readers.
pub fn first<'a>(copy: &'a [u8]) -> &'a [u8]
    ensures { (result.now ≡ block_at copy.now 0) × (result.ref_ptr ≡ part_at copy.entry.ref_ptr (length copy.now) 0) }
{
    Reader::start(copy).part()
}
