// Records, one behind the other (01, "The certificate").
ghost use Rattle.std.specs.List.{flat_map};
ghost use Rattle.page.specs.Added.{Added};
ghost use Rattle.records.specs.Kinds.{kind_number};
ghost use Rattle.records.specs.Record.{record_of};
ghost use Rattle.writer.specs.Inner.Records.{bytes_of};

use page::{Page, Text};
use put::put_head;
use records::{HEAD, Kind};

// Of each record its kind and its contents.
#[derive(Clone, Copy)]
pub(crate) struct Records<'a>(pub(crate) &'a [(Kind, &'a [u8])]);

impl Text for Records<'_> {
    ghost text = { λ records. flat_map bytes_of records.0.now };

    fn put(&self, page: &mut Page) {
        for (kind, contents) in self.0 {
            put_record(page, *kind, contents);
        }
    }
}

// Its head and its contents.
fn put_record(page: &mut Page, kind: Kind, contents: &[u8])
    ensures { Added (record_of (kind_number kind) contents.now) page.old page.new }
{
    let mut head = [0; HEAD];
    put_head(&mut head, 0, kind.number(), contents.len());
    page.bytes(&head);
    page.bytes(contents);
}
