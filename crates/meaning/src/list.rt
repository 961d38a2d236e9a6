//! Access to a list by place, with a contract that ties the item to the list in the specifications.
ghost use Rattle.std.specs.Prelude.{◌≡◌, ◌<◌, IfSome, length, slice_get};

/// The item at a place of a list, if there is one.
pub fn item_at<T: Copy>(items: &[T], place: usize) -> Option<T>
    ensures value { result ≡ slice_get items.now place }
    ensures within { IfSome result (λ _. place < length items.now) }
{
    match items.get(place) {
        Some(item) => Some(*item),
        None => None,
    }
}
