// What a node sees of a bundle, as the list that a person reads and `make` takes: a line for each setting, laid in a lent buffer.
#![tactic(auto)]

ghost use Rattle.std.specs.Prelude.{◌≡◌, ◌+◌, ◌*◌, get_or};
ghost use Rattle.differ_text.specs.Pieces.{Lays};
ghost use Rattle.differ_text.specs.Puts.{Puts};
ghost use Rattle.bundle_text.specs.Seen.{must_text, head_line, stated, entry_line};

use bundle_format::Opened;
use bundle_reader::entry;
pub use differ_text::LINE_MOST;
use differ_text::Page;

// The last byte of entry i of the table.
fn must_of(bundle: &[u8], i: u32) -> u8
    ensures { result ≡ get_or bundle.now (19 + 12 * i) 0 }
{
    bundle.get(19 + 12 * i as usize).copied().unwrap_or(0)
}

fn put_must(page: &mut Page, must: u8)
    ensures { Puts (must_text must) page.old page.new }
{
    if must != 0 {
        page.put_all(b" must-know");
    }
}

// The edition that a bundle says.
pub fn edition(bundle: &[u8]) -> u32
    ensures { result ≡ stated bundle.now }
{
    match bundle {
        [high, low, ..] => u16::from_be_bytes([*high, *low]) as u32,
        _ => 0,
    }
}

// The line that a list begins with: the bundle's edition, and the reader's.
pub fn head(edition: u32, reader: u32, out: &mut [u8]) -> usize
    ensures { Lays (head_line edition reader) out.old result out.new }
{
    let mut page = Page::new(out);
    page.put_all(b"# a bundle of edition ");
    page.put_decimal(edition as u64);
    page.put_all(b", as a node of edition ");
    page.put_decimal(reader as u64);
    page.put_all(b" sees it\n");
    page.len()
}

// The line of the entry at a place of the table, of a bundle that was looked through. All of it, or as much as fits, is laid in the buffer from its start; the number of its bytes there is told.
pub fn line(seen: Opened, bundle: &[u8], i: u32, out: &mut [u8]) -> usize
    ensures { Lays (entry_line seen bundle.now i) out.old result out.new }
{
    let told = entry(seen, bundle, i);
    let mut page = Page::new(out);
    page.put_decimal(told.id as u64);
    page.put(b' ');
    page.put_side(told, bundle);
    put_must(&mut page, must_of(bundle, i));
    page.put(b'\n');
    page.len()
}
