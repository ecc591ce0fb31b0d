//! Line feeds.
ghost use Rattle.ax_lines.specs.Feeds.{IsFirstFeed};

use memchr::memchr;

/// The place of the first line feed.
#[tactic(auto, using(crate::proofs::FirstFeeds::first_feeds))]
pub fn first_feed(octets: &[u8]) -> Option<usize>
    ensures { IsFirstFeed octets.now result }
{
    memchr(b'\n', octets)
}
