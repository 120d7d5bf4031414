ghost use Rattle.std.specs.Prelude.{◌≡◌};

/// The terms on which a flow is written and read: what both its ends agree on.
#[derive(Clone, Copy, PartialEq, Eq, Debug, Drop)]
pub struct Terms<K, S> {
    pub checksum: K,
    pub service: S,
    /// Whether packets may cross superframes.
    pub fasb: bool,
}

impl<K, S> Terms<K, S> {
    /// The same terms, with what they hold lent.
    pub fn as_ref(&self) -> Terms<&K, &S>
        ensures lends { (result.checksum.now ≡ self.now.checksum) × (result.service.now ≡ self.now.service) }
        ensures mode { result.fasb ≡ self.now.fasb }
    {
        Terms {
            checksum: &self.checksum,
            service: &self.service,
            fasb: self.fasb,
        }
    }
}
