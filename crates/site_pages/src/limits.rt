//! How long a request may be.

ghost use Rattle.std.specs.Prelude.{◌≡◌};
ghost use Rattle.site_pages.specs.Serving.{page_config};

use http_server::Config;
use http1::Limits;

/// A head of 8 KiB, a body of 4 KiB, which no request for a page has, and 64 KiB that wait to be
/// sent.
pub(crate) fn config() -> Config
    ensures { result ≡ page_config }
{
    Config {
        limits: Limits {
            max_head_len: 8 * 1024,
            max_extensions_len: 1024,
            max_trailers_len: 1024,
        },
        max_body_len: 4 * 1024,
        max_pending: 64 * 1024,
        read_size: 8 * 1024,
    }
}
