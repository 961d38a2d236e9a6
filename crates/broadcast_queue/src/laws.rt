//! What holds of the definitions that the contracts of `BroadcastQueue` cite. None of these functions does anything:
//! their contracts are the laws.
ghost use Rattle.std.specs.Prelude.{◌≡◌, ℕ, ◌+◌, ◌-◌, ◌≤◌, ◌⊎◌, nat_le, false, List, [], find, sum_by};
ghost use Rattle.std.specs.FinMap.{get};
ghost use Rattle.broadcast_queue.specs.declared.items.Measure.TheVariants.{Bytes as AnyBytes};
ghost use Rattle.broadcast_queue.specs.declared.items.Item.{Item as AnyItem};
ghost use Rattle.broadcast_queue.specs.declared.items.Measure.{Measure as AnyMeasure};
ghost use Rattle.broadcast_queue.specs.declared.lengths.Carrier.{Carrier as AnyCarrier};
ghost use Rattle.broadcast_queue.specs.Items.{cost, is_about, picks_from, those_that_fit};
ghost use Rattle.broadcast_queue.specs.Lengths.{carrier_bytes, room_in};
ghost use Rattle.broadcast_queue.specs.Contents.{IsInOrder};
ghost use Rattle.broadcast_queue.specs.Uses.{Use, queue_after};

/// A queue whose ids don't begin anew never loses an item: whatever is put and picked, each pointer
/// points to the item of the set that is about its subject. (One that resets does lose items: the
/// test `an_id_that_comes_twice_loses_an_item`.)
pub fn a_queue_without_the_reset_loses_nothing()
    ensures { (uses : List Use) (subject : ℕ) → let queue = queue_after false uses in
        get queue.pointers subject ≡ find (is_about subject) queue.items }
{}

/// Of items in order a pick takes, each time, the first that fits into the room left, until none
/// does: what memberlist finds by looking through all items of a count for the first that fits.
pub fn a_pick_takes_the_first_that_fits()
    ensures { (measure : AnyMeasure) (room : ℕ) (items : List AnyItem) → IsInOrder items
        → those_that_fit measure room items
        ≡ picks_from measure room items (find (λ it. nat_le (cost measure it) room) items) }
{}

/// A pick takes no more than its room.
pub fn a_pick_keeps_to_its_room()
    ensures { (measure : AnyMeasure) (room : ℕ) (items : List AnyItem)
        → sum_by (cost measure) (those_that_fit measure room items) ≤ room }
{}

/// A pick by bytes takes nothing, or the packet holds the message and all that was picked, with the
/// two bytes that count the packet's messages.
pub fn a_pick_by_bytes_fits_into_its_packet()
    ensures { (packet : ℕ) (carrier : AnyCarrier) (items : List AnyItem)
        → let picked = those_that_fit AnyBytes (room_in packet carrier) items in
        (picked ≡ []) ⊎ (2 + carrier_bytes carrier + sum_by (cost AnyBytes) picked ≤ packet) }
{}
