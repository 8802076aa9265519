//! The faults of image files.

ghost use Rattle.pw_law_image.specs.ImageFaults.{ImageFaultsStay};

/// A fault lies within the bytes. Where the entry is the address of a word, a fault of the fields is the file's, and rests
/// on the bytes up to the faulty field's end. An entry that is no address of a word is the file's fault behind a lawful
/// header, and rests on the bytes up to the end of the count of words.
pub fn faults_stay()
    ensures { ImageFaultsStay }
{}
