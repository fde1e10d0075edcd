// Namespace identifiers over the sizes of the namespaces.
ghost use Rattle.std.specs.Prelude.{◌≡◌};
ghost use Rattle.nvme_entry.specs.Namespaces.{size_at};

/// The namespace identifier that names every namespace. (Base Specification, Common Command Format, NSID)
pub const BROADCAST: u32 = 0xffff_ffff;

/// The size of a namespace in logical blocks, 0 where its identifier is inactive, or `None` where it is invalid.
pub fn size(nsid: u32, sizes: &[u64]) -> Option<u64>
    ensures { result ≡ size_at sizes.now nsid }
{
    let index = (nsid as usize).checked_sub(1)?;
    sizes.get(index).copied()
}
