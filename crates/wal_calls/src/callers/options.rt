//! Values in options.
ghost use Rattle.std.specs.Prelude.{◌≡◌, None, Some};

// Puts a value where none is.
pub(crate) fn put<T>(option: &mut Option<T>, value: T)
    requires { option.old ≡ None }
    ensures { option.new ≡ Some value }
{
    match option.replace(value) {
        None => {}
        Some(_other) => unreachable!(),
    }
}
