use crate::lots::Lots;
use std::alloc::{AllocError, Global};

/// The lines that users have, one a line; more than once where they are drawn more often. `@` stands for a user, `#` for a name
/// that is shared, `~` for 0 or 1, and `%` for a number.
const LINES: &str = "\
@ ⎕SVO '#'
@ ⎕SVO '#'
@ ⎕SVO '#'
0 ⎕SVO '#'
@ ⎕SVO '# #'
~ ~ ~ ~ ⎕SVC '#'
1 1 1 1 ⎕SVC '#'
1 0 0 1 ⎕SVC '#'
#←%
#←%
#←%
#←⍳%
#
#
#
#←#+%
#+#
⎕SVO '#'
⎕SVC '#'
⎕SVS '#'
⎕SVR '#'
⎕SVQ @
⎕SVQ ''
C←0
C
T←'NEXT'
T
∇R←ADD N
[1] R←#+N
∇
ADD %
)SAVE KEPT
)LOAD KEPT
)CLEAR
)COPY KEPT #
)ERASE #
)VARS
)LIB
%÷0
⍎'#'";

/// Lines that belong together, an empty line between two scenes: a file is read and the clock is asked, each under control that
/// makes a use wait for the reply, and twice without; values are given and taken with the user beside, which `&` stands for, under
/// the name of the scene, `$`; and a use waits until nobody can go on, since no user answers its offer.
const SCENES: &str = "\
20 ⎕SVO 'T'
1 1 1 1 ⎕SVC 'T'
T←'READ NOTES'
T
T←'NEXT'
T
⎕SVR 'T'

10 ⎕SVO 'C'
1 1 1 1 ⎕SVC 'C'
C←0
C
⎕SVR 'C'

20 ⎕SVO 'T'
T←'READ NOTES'
T

10 ⎕SVO 'C'
C←0
C

& ⎕SVO '$'
1 1 1 1 ⎕SVC '$'
$←%
$
$←%
$

& ⎕SVO '$'
1 0 0 1 ⎕SVC '$'
$←%
$←%
⎕SVR '$'

1999 ⎕SVO 'W'
1 1 1 1 ⎕SVC 'W'
W
⎕SVR 'W'";

/// What the first user begins with, and what each other one does: all others offer to the first, which offers to any, so that who
/// goes or takes its offer back leaves it to the next.
const FIRST_BEGINS: &str = "0 ⎕SVO 'M'";

const OTHERS_BEGIN: &str = "1001 ⎕SVO 'M'";

/// What some users end with: they wait until nobody can go on.
const WAITS_LAST: &str = "\
1999 ⎕SVO 'V'
1 1 1 1 ⎕SVC 'V'
V
⎕SVR 'M'
V";

const NAMES: &str = "XYZ";

/// What stands behind the users and the order of each bundle: a file, and readings.
pub const BEHIND: &str = "file NOTES\n|ONE\n|TWO\nclock 5 6 7 8 9\nend\n";

/// Whose lines are drawn: how many users there are, which of them it is, counted from 0, and the name of its scene.
#[derive(Clone, Copy, Debug)]
struct Whose {
    users: u64,
    user: u64,
    name: char,
}

fn name_at(at: u64) -> char {
    NAMES.chars().nth(at as usize).unwrap_or('X')
}

// Adds a line, with what is drawn in the place of its signs.
fn add_line(
    text: &mut String,
    lots: &mut Lots,
    whose: Whose,
    line: &str,
) -> Result<(), AllocError> {
    text.push('|')?;
    for sign in line.chars() {
        match sign {
            '@' => {
                let user = lots.below(whose.users).saturating_add(1001);
                write!(text, "{user}")?;
            }
            '&' => {
                let beside = (whose.user ^ 1).saturating_add(1001);
                write!(text, "{beside}")?;
            }
            '#' => text.push(name_at(lots.below(3)))?,
            '$' => text.push(whose.name)?,
            '~' => {
                let bit = lots.below(2);
                write!(text, "{bit}")?;
            }
            '%' => {
                let number = lots.below(7);
                write!(text, "{number}")?;
            }
            other => text.push(other)?,
        }
    }
    text.push('\n')
}

// Adds the lines of a scene.
fn add_scene(
    text: &mut String,
    lots: &mut Lots,
    whose: Whose,
    scene: &str,
) -> Result<(), AllocError> {
    for line in scene.lines() {
        add_line(text, lots, whose, line)?;
    }
    Ok(())
}

// Adds a line or, once in four times, a scene.
fn add_part(text: &mut String, lots: &mut Lots, whose: Whose) -> Result<(), AllocError> {
    let name = name_at(lots.below(3));
    let whose = Whose { name, ..whose };
    let scene = if lots.below(4) == 0 {
        let scenes = SCENES.split("\n\n").count() as u64;
        SCENES.split("\n\n").nth(lots.below(scenes) as usize)
    } else {
        let lines = LINES.lines().count() as u64;
        LINES.lines().nth(lots.below(lines) as usize)
    };
    add_scene(text, lots, whose, scene.unwrap_or("#"))
}

fn add_user(text: &mut String, lots: &mut Lots, users: u64, user: u64) -> Result<(), AllocError> {
    let number = user.saturating_add(1001);
    write!(text, "user {number}\n")?;
    let whose = Whose {
        users,
        user,
        name: 'X',
    };
    let begins = if user == 0 {
        FIRST_BEGINS
    } else {
        OTHERS_BEGIN
    };
    add_scene(text, lots, whose, begins)?;
    let most = if users > 8 { 9 } else { 24 };
    let count = lots.below(most);
    for _part in 0..count {
        add_part(text, lots, whose)?;
    }
    if lots.below(2) == 0 {
        add_scene(text, lots, whose, WAITS_LAST)?;
    }
    Ok(())
}

/// The users of a bundle drawn by lot, up to so many, with their lines.
pub fn drawn_users(alloc: Global, lots: &mut Lots, most_users: u64) -> Result<String, AllocError> {
    let mut text = String::new(alloc);
    let users = lots.below(most_users).saturating_add(1);
    for user in 0..users {
        add_user(&mut text, lots, users, user)?;
    }
    Ok(text)
}
