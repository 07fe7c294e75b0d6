ghost use Rattle.std.specs.Prelude.{◌≡◌, ◌*◌, ◌≤◌, ℕ, All, length, map, take};
ghost use Rattle.std.specs.List.{flat_map};
ghost use Rattle.apl_arrays.specs.List.{glyphs_in};
ghost use Rattle.apl_arrays.specs.Limits.{most_user_lines, most_users};
ghost use Rattle.line_text.specs.Lines.{content, user_lines, lines_text};
ghost use Rattle.bundle_text.specs.User.{plain_user};
ghost use Rattle.bundle_text.specs.Rules.{IsContent, IsUser};
ghost use Rattle.bundle_text.specs.Offset.{lines_of_user, offset_of};

use crate::user::BundleUser;
use apl_arrays::Line;
use line_text::{heading_size, line_size};

// How many bytes lines of input take, each with its bar.
fn contents_size(lines: &[Line]) -> u64
    requires few { length lines.now ≤ most_user_lines }
    requires each { All IsContent (map glyphs_in lines.now) }
    ensures value { result ≡ length (lines_text (map content (map glyphs_in lines.now))) }
    ensures small { result ≤ 3002 * length lines.now }
{
    let mut size = 0;
    for line in lines {
        size += 1 + line_size(line.as_slice());
    }
    size
}

// How many bytes a user's heading and so many of its lines take.
fn front_size(user: &BundleUser, line: usize) -> u64
    requires { IsUser (plain_user user.now) }
    ensures value { result ≡ length (lines_text (user_lines user.now.number (take line (plain_user user.now).lines))) }
    ensures small { result ≤ 30020026 }
{
    let lines = user.lines.as_slice();
    heading_size(user.number) + contents_size(&lines[..line.min(lines.len())])
}

// How many bytes users take, with all their lines.
fn users_size(users: &[BundleUser]) -> u64
    requires few { length users.now ≤ most_users }
    requires each { All IsUser (map plain_user users.now) }
    ensures value { result ≡ length (lines_text (flat_map lines_of_user (map plain_user users.now))) }
    ensures small { result ≤ 30020026 * length users.now }
{
    let mut size = 0;
    for user in users {
        size += front_size(user, user.lines.as_slice().len());
    }
    size
}

/// How many bytes stand in front of a line of a user, both counted from 0; in front of what follows the users where there is no such user.
pub fn offset_of(users: &[BundleUser], user: usize, line: usize) -> u64
    requires few { length users.now ≤ most_users }
    requires each { All IsUser (map plain_user users.now) }
    ensures { result ≡ offset_of (map plain_user users.now) user line }
{
    if user >= users.len() {
        return users_size(users);
    }
    users_size(&users[..user]) + front_size(&users[user], line)
}
