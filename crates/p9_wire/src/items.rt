// Any number of values, behind their count.
ghost use Rattle.std.specs.Prelude.{◌≡◌, ◌<◌, ◌^◌, ◌+◌, ◌↔◌, ◌++◌, ℕ, List, length, map, IsTrue};
ghost use Rattle.std.specs.Prelude.{MatchOption};
ghost use Rattle.std.specs.List.{flat_map, AllByRecursion};
ghost use Rattle.p9_wire.specs.Reading.{Decodes};
ghost use Rattle.p9_wire.specs.Sending.{Sends};
ghost use Rattle.p9_wire.specs.Items.{times, ItemsSpell, items_spelling, items_reading};
ghost use Rattle.p9_wire.specs.Items.{items_lawful};

use crate::error::WireError;
use crate::format::WireFormat;
use port_base::sink::{Sink, SinkFault};
use port_base::source::Source;
use std::alloc::Global;

// The values that come next.
fn decode_items<T: WireFormat, S: Source>(
    alloc: Global,
    source: &mut S,
    count: u16,
) -> Result<Vec<T>, WireError>
    ensures decodes { Decodes (λ v. map T.view v.items) (times T.reading count) (S.left source.old)
        (S.left source.new) (S.faults source.old) (S.faults source.new) result }
    ensures kept { S.kept source.new ≡ S.kept source.old }
    ensures lender { S.lender source.new ≡ S.lender source.old }
{
    let mut items = Vec::new(alloc);
    for _ in 0..count {
        let item = T::decode(alloc, source)?;
        items.push(item)?;
    }
    Ok(items)
}

// How many bytes the values have, where they fit.
fn items_size<T: WireFormat>(items: &[T]) -> Option<u32>
    ensures { MatchOption result (¬ (AllByRecursion T.Spells (map T.view items.now)
        × (length (flat_map T.spelling (map T.view items.now)) < 2 ^ 32)))
        (λ n. AllByRecursion T.Spells (map T.view items.now)
        × (n ≡ length (flat_map T.spelling (map T.view items.now)))) }
{
    let mut size = 0u32;
    for item in items {
        if !item.fits() {
            return None;
        }
        let more = item.byte_size();
        if more > u32::MAX - size {
            return None;
        }
        size += more;
    }
    Some(size)
}

fn send_items<T: WireFormat, K: Sink>(items: &[T], sink: &mut K) -> Result<(), SinkFault>
    requires spells { AllByRecursion T.Spells (map T.view items.now) }
    requires short { length (flat_map T.spelling (map T.view items.now)) < 2 ^ 32 }
    ensures sends { Sends (flat_map T.spelling (map T.view items.now)) (K.sent sink.old)
        (K.sent sink.new) (K.room sink.old) (K.room sink.new) (K.faults sink.old)
        (K.faults sink.new) result }
    ensures kept { K.kept sink.new ≡ K.kept sink.old }
{
    for item in items {
        item.send(sink)?;
    }
    Ok(())
}

impl<T: WireFormat> WireFormat for Vec<T> {
    ghost Plain = { List T.Plain };

    ghost view = { λ v. map T.view v.items };

    ghost Spells = { ItemsSpell T.Spells };

    ghost spelling = { items_spelling T.spelling };

    ghost IsSound = { AllByRecursion T.IsSound };

    ghost IsReadable = { AllByRecursion T.IsReadable };

    ghost reading = { items_reading T.reading };

    ghost lawful = { items_lawful T.Spells T.spelling T.IsSound T.IsReadable T.reading T.lawful };

    fn fits(&self) -> bool {
        if self.len() > 65535 {
            return false;
        }
        match items_size(self) {
            Some(size) => size <= u32::MAX - 2,
            None => false,
        }
    }

    fn byte_size(&self) -> u32 {
        match items_size(self) {
            Some(size) => size + 2,
            None => unreachable!(),
        }
    }

    fn send<K: Sink>(&self, sink: &mut K) -> Result<(), SinkFault> {
        let count = self.len() as u16;
        count.send(sink)?;
        send_items(self, sink)
    }

    fn decode<S: Source>(alloc: Global, source: &mut S) -> Result<Self, WireError> {
        let count = u16::decode(alloc, source)?;
        decode_items(alloc, source, count)
    }
}
