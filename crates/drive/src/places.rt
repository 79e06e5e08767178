// Places of an array.

// Puts a value into a place, if there is one.
pub(crate) fn put<T: Copy>(places: &mut [T], i: usize, value: T) {
    if let Some(place) = places.get_mut(i) {
        *place = value;
    }
}
