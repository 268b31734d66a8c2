/// A primitive: a function that every program may call and no program declares.
#[derive(Clone, Copy)]
pub enum Primitive {
    /// `hd`, the first item of a list.
    Hd,
    /// `tl`, a list without its first item.
    Tl,
    /// `length`, the number of items of a list.
    Length,
    /// `intToString`, the printed form of a number.
    IntToString,
    /// `hostToString`, `@` and the number of a host.
    HostToString,
    /// `stringToBlob`, the bytes of a string.
    StringToBlob,
    /// `blobLength`, the number of bytes of a blob.
    BlobLength,
    /// `blobPart`, so many bytes of a blob from a place.
    BlobPart,
}
