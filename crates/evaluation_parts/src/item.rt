//! The item of a place.

ghost use Rattle.std.specs.Prelude.{◌≡◌, option_map, slice_get};

/// The item of that place, counted from 0, if there is one.
pub(crate) fn item_at<T>(items: &[T], place: usize) -> Option<&T>
    ensures { option_map (λ x. x.now) result ≡ slice_get items.now place }
{
    items.get(place)
}
