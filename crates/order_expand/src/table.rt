// Tables with a value for each descriptor of a catalog.
ghost use Rattle.std.specs.Prelude.{◌≡◌, ◌<◌, Some, length};
ghost use Rattle.std.specs.List.{slice_get};

/// What stands in a table at a place.
pub(crate) fn at<T: Copy>(table: &[T], place: usize) -> T
    requires { place < length table.now }
    ensures { slice_get table.now place ≡ Some result }
{
    table[place]
}
