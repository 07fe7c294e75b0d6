ghost use Rattle.std.specs.Prelude.{◌≡◌, ◌≤◌, length};

use crate::finding::Finding;
use crate::heading::{LineSort, sort_of};

const INPUT_IN_FRONT: &str =
    "a line of input stands below the heading of a user or of a file, and no heading stands above";

const INPUT_BEHIND: &str =
    "a line of input stands below the heading of a user or of a file, which the one above is not";

const BEHIND_END: &str = "nothing stands behind the line end";

const USER_BELOW: &str =
    "the numbers of users ascend, and this one is not above that of the user before";

const USER_LATE: &str = "users stand in front of orders, files and clocks";

const ORDER_LATE: &str = "an order stands behind the users and in front of files and clocks";

const FILE_BELOW: &str =
    "the names of files ascend by ASCII, and this one is not above that of the file before";

const FILE_LATE: &str = "files stand in front of clocks";

const OTHER: &str = "this line may not stand here";

// How many bytes stand in front of the number or name of a heading of a user or a file.
const BEGIN: usize = 5;

fn user_finding(line: &[u8], last: LineSort) -> Finding
    ensures { result.at ≤ length line.now }
{
    if last == LineSort::User {
        Finding::new(line.len().min(BEGIN), USER_BELOW)
    } else {
        Finding::new(0, USER_LATE)
    }
}

fn file_finding(line: &[u8], last: LineSort) -> Finding
    ensures { result.at ≤ length line.now }
{
    if last == LineSort::File {
        Finding::new(line.len().min(BEGIN), FILE_BELOW)
    } else {
        Finding::new(0, FILE_LATE)
    }
}

/// What is wrong in a line that may not stand where it does: behind a heading that begins so, or behind none.
pub fn place_finding(line: &[u8], last: Option<LineSort>) -> Finding
    ensures { result.at ≤ length line.now }
{
    match last {
        None => Finding::new(0, INPUT_IN_FRONT),
        Some(LineSort::End) => Finding::new(0, BEHIND_END),
        Some(last) => match sort_of(line) {
            LineSort::Input => Finding::new(0, INPUT_BEHIND),
            LineSort::User => user_finding(line, last),
            LineSort::Order => Finding::new(0, ORDER_LATE),
            LineSort::File => file_finding(line, last),
            LineSort::Clock | LineSort::End | LineSort::Other => Finding::new(0, OTHER),
        },
    }
}
