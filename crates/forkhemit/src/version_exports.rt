// The exports of `host_version`, for C: each calls the function of that name there, and states its clauses.
ghost use Rattle.std.specs.Prelude.{◌≡◌};

// The version of this library.
#[unsafe(no_mangle)]
pub extern "C" fn forkhemit_version() -> u64
    ensures { result ≡ 10000 }
{
    host_version::forkhemit_version()
}
