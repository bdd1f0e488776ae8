// A part of a page put into a transfer buffer: from its header, from its store, and zeros past its end.
//
// It rests on choices, copies, pages, words, header and records. It promises that the buffer's front is the page's bytes from the offset on
// and that the rest of the buffer stays (specs/Serving.antt). Bytes move in three straight runs, and no more of the store is touched than is asked for.
#![tactic(auto)]

ghost use Rattle.std.specs.Prelude.{◌≡◌, ◌++◌, ◌+◌, ◌-◌, ◌≤◌, length};
ghost use Rattle.pages.specs.Pages.{block, per_page};
ghost use Rattle.header.specs.Header.{header_of};
ghost use Rattle.records.specs.Records.{fields_for, blocks_for};
ghost use Rattle.copies.specs.Parts.{zeros};
ghost use Rattle.serving.specs.Serving.{window_of, served_into};

use records::Record;
use words::Command;

// A front, then blocks, then zeros fill the buffer.
fn put_runs(front: &[u8], blocks: &[u8], buf: &mut [u8])
    requires { length front.now + length blocks.now ≤ length buf.old }
    ensures { buf.new ≡ (front.now ++ blocks.now) ++ zeros (length buf.old - (length front.now + length blocks.now)) }
{
    let end = front.len() + blocks.len();
    let rest = buf.len() - end;
    copies::put(front, buf, 0);
    copies::put(blocks, buf, front.len());
    copies::put_zeros(rest, buf, end);
}

// The buffer is filled with the page's bytes from the offset on, with zeros past its end: the page is its header and these blocks.
fn put_window(header: &[u8], blocks: &[u8], offset: usize, buf: &mut [u8])
    requires { length header.now ≡ block }
    ensures { buf.new ≡ window_of offset (length buf.old) (header.now ++ blocks.now) }
{
    let a = offset.min(pages::BLOCK);
    let n = buf.len().min(pages::BLOCK - a);
    let b = (offset - a).min(blocks.len());
    let k = (buf.len() - n).min(blocks.len() - b);
    put_runs(&header[a..a + n], &blocks[b..b + k], buf);
}

// The page is its header and the first blocks of its store. Its bytes from the offset on, with zeros past its end, go to the front of
// `buf`. Where the store is shorter than the blocks, or `buf` shorter than the transfer, `buf` stays as it is.
#[tactic(auto, unfolding(crate::specs::Serving::served_into, crate::specs::Serving::page_bytes))]
fn serve(header: [u8; 512], store: &[u8], blocks: u32, offset: usize, bytes: usize, buf: &mut [u8])
    ensures { buf.new ≡ served_into header store.now blocks offset bytes buf.old }
{
    let size = pages::in_bytes(blocks);
    if (size <= store.len()) & (bytes <= buf.len()) {
        put_window(&header, &store[..size], offset, &mut buf[..bytes]);
    }
}

// The store of the page asked for: 07h's, and 08h's for any other number.
fn store_of<'a>(page: u8, host: &'a [u8], controller: &'a [u8]) -> &'a [u8]
    ensures { result.now ≡ per_page page host.now controller.now }
{
    if page == pages::HOST {
        host
    } else {
        controller
    }
}

// The bytes of a record's page that a command asks for go to the front of the buffer, as `serve` puts them.
pub fn send<'a>(r: Record, host: &'a [u8], controller: &'a [u8], c: Command, buf: &mut [u8])
    ensures { buf.new ≡ served_into (header_of (fields_for c.page r)) (per_page c.page host.now controller.now) (blocks_for c.page r) c.offset c.bytes buf.old }
{
    let f = records::fields(c.page, r);
    let last = f.last;
    serve(
        header::write(f),
        store_of(c.page, host, controller),
        pages::blocks(r.caps, last),
        c.offset,
        c.bytes,
        buf,
    );
}
