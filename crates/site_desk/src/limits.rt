//! How long a request may be.

ghost use Rattle.std.specs.Prelude.{◌≡◌};
ghost use Rattle.site_desk.specs.Serving.{desk_config};

use http_server::Config;
use http1::Limits;

/// A head of 8 KiB, a body of 4 KiB, which is some twenty times what four words need, and 64 KiB
/// that wait to be sent.
pub(crate) fn config() -> Config
    ensures { result ≡ desk_config }
{
    Config {
        limits: Limits {
            max_head_len: 8 * 1024,
            max_extensions_len: 1024,
            max_trailers_len: 1024,
        },
        max_body_len: 4 * 1024,
        max_pending: 64 * 1024,
        read_size: 8 * 1024,
    }
}
