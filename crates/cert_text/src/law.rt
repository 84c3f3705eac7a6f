//! The law of what is written.

ghost use Rattle.cert_text.specs.ReadBack.{BundlesAreReadBack};

/// The text of a bundle within the limits of a file is read back to the bundle. A theorem; the body is empty.
pub fn bundles_are_read_back()
    ensures { BundlesAreReadBack }
{}
