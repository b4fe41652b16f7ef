// The version that a title tells.
ghost use Rattle.std.specs.Prelude.{◌≡◌, ◌≢◌, MatchOption};
ghost use Rattle.ml_base.specs.declared.version.Version.{Version};
ghost use Rattle.ml_front.specs.Head.{version_word};

use ml_base::Version;

/// The word of a version.
pub(crate) fn version_word(version: Version) -> &'static [u8]
    ensures { result.now ≡ version_word version }
{
    match version {
        Version::One => b"1",
        Version::Two => b"2",
    }
}

/// The version that a word tells; `None` where it tells none.
pub(crate) fn version_of(word: &[u8]) -> Option<Version>
    ensures { MatchOption result ((v : Version) → word.now ≢ version_word v) (λ v. word.now ≡ version_word v) }
{
    if word == version_word(Version::One) {
        Some(Version::One)
    } else if word == version_word(Version::Two) {
        Some(Version::Two)
    } else {
        None
    }
}
