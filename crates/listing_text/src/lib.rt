// The text of the plot lister's answer, written into a lent buffer as far as that goes. The public functions answer the number of bytes written.
// The text is what specs/Text.antt says, piece by piece.

#![tactic(auto)]

ghost use Rattle.std.specs.Prelude.{◌≡◌, ◌/◌, length};
ghost use Rattle.plot.specs.Grammar.{reading, Readable};
ghost use Rattle.listing_text.specs.Text.{line_text, lines_text, plot_lines, refusal_text, listing_text};
ghost use Rattle.listing_text.specs.Buffer.{text_in, text_length};
ghost use Rattle.listing_text.specs.Puts.{Puts};

mod writer;

use answers::Numbered;
use plot::{Cursor, Line};
use writer::Writer;

// A tally line: plot, species, class, count.
fn put_line(w: &mut Writer, plot: u16, line: Line)
    ensures { Puts (line_text plot line) w.old w.new }
{
    w.put_field(usize::from(plot), b',');
    w.put_field(usize::from(line.species), b',');
    w.put_field(usize::from(line.class), b',');
    w.put_field(usize::from(line.count), b'\n');
}

// The lines of a record, three bytes a line.
fn put_lines(w: &mut Writer, plot: u16, lines: &[u8])
    ensures { Puts (lines_text plot (length lines.now / 3) lines.now) w.old w.new }
{
    for bytes in lines.chunks_exact(3) {
        put_line(w, plot, Line::from_bytes(bytes));
    }
}

// The lines of every plot of an accepted payload.
fn put_plots(w: &mut Writer, payload: &[u8])
    requires { Readable (reading payload.now) }
    ensures { Puts (plot_lines (reading payload.now)) w.old w.new }
{
    let mut c = Cursor { at: 0, last: 0 };
    while let Ok(Some(record)) = c.next(payload) {
        put_lines(w, record.next.last, &payload[record.lines..record.next.at]);
        c = record.next;
    }
}

/// The answer for a refusal: its number and its place.
pub fn write_refusal(number: u8, place: usize, out: &mut [u8]) -> usize
    ensures value { result ≡ text_length (refusal_text number place) out.old }
    ensures out_after { out.new ≡ text_in (refusal_text number place) out.old }
{
    let mut w = Writer { out, at: 0 };
    w.put_text(b"refused,");
    w.put_field(usize::from(number), b',');
    w.put_field(place, b'\n');
    w.at
}

// Header, lines and the number of blocks changed, of an accepted payload.
fn put_answer(w: &mut Writer, payload: &[u8], changed: usize)
    requires { Readable (reading payload.now) }
    ensures { Puts (listing_text changed (reading payload.now)) w.old w.new }
{
    w.put_text(b"plot,species,class,count\n");
    put_plots(w, payload);
    w.put_text(b"mended,");
    w.put_field(changed, b'\n');
}

/// The whole answer for the payload of a sheet that was read, with the number of blocks changed: the number of bytes written.
pub fn write_listing(payload: &[u8], changed: usize, out: &mut [u8]) -> usize
    ensures value { result ≡ text_length (listing_text changed (reading payload.now)) out.old }
    ensures out_after { out.new ≡ text_in (listing_text changed (reading payload.now)) out.old }
{
    match plot::check(payload) {
        Ok(_) => {
            let mut w = Writer { out, at: 0 };
            put_answer(&mut w, payload, changed);
            w.at
        }
        Err(r) => write_refusal(r.number(), r.place(), out),
    }
}
