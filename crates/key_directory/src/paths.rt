// Which paths a watch sees, and which an end may write.
ghost use Rattle.std.specs.Prelude.{◌≡◌};
ghost use Rattle.key_directory.specs.Paths.{is_at_or_under, is_under, directory_of};

use blk_base::End;

/// The front's own directory.
pub(crate) const FRONT_DIRECTORY: &str = "/local/domain/1/device/vbd/51712";

/// The back's own directory.
pub(crate) const BACK_DIRECTORY: &str = "/local/domain/0/backend/vbd/1/51712";

/// Whether `path` is the watch's path, or goes on below it.
pub(crate) fn is_at_or_under(watch: &str, path: &str) -> bool
    ensures { result ≡ is_at_or_under watch.now path.now }
{
    let (watch, path) = (watch.as_bytes(), path.as_bytes());
    if !path.starts_with(watch) {
        return false;
    }
    match path.get(watch.len()) {
        None => true,
        Some(byte) => *byte == b'/',
    }
}

/// Whether `path` goes on below the directory.
pub(crate) fn is_under(directory: &str, path: &str) -> bool
    ensures { result ≡ is_under directory.now path.now }
{
    let (directory, path) = (directory.as_bytes(), path.as_bytes());
    if !path.starts_with(directory) {
        return false;
    }
    match path.get(directory.len()) {
        None => false,
        Some(byte) => *byte == b'/',
    }
}

/// The directory that an end may write in, without a slash after it.
pub fn directory_of(end: End) -> &'static str
    ensures { result.now ≡ directory_of end }
{
    match end {
        End::Front => FRONT_DIRECTORY,
        End::Back => BACK_DIRECTORY,
    }
}
