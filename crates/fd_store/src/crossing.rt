use fd_part::Part;
use fd_shelf::Shelf;

/// Goes from one thread to another.
fn crosses<T: Send>() {}

/// A shelf of parts goes from one thread to another: this checks only while its type is `Send`.
pub fn crossing_laws() {
    crosses::<Shelf<Part>>();
}
