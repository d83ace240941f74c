//! Images, as rows spell them: `FILE LENGTH SHA256 HARDWARE RELEASE NEEDS CONFLICTS`, each of NEEDS a `HARDWARE:RELEASE`, and
//! the SHA-256 with a `+` and a SHA-512 behind it where the image has one.
use crate::store::fault::Fault;
use crate::store::words::{
    count, file_name, file_names, hashes, hashes_digits, ident, idents, push_file_names,
    push_idents, push_item, push_list, push_number, push_part, push_word, word,
};
use std::alloc::{AllocError, Global};
use up_plan::image::{Image, Need};

pub(crate) fn image(alloc: Global, given: &str) -> Result<Image, Fault> {
    let (sha256, sha512) = hashes(alloc, word(given, 2))?;
    let made = Image::new(
        file_name(alloc, word(given, 0))?,
        count(word(given, 1))?,
        sha256,
        sha512,
        idents(alloc, word(given, 3))?,
        count(word(given, 4))?,
        needs(alloc, word(given, 5))?,
        file_names(alloc, word(given, 6))?,
    );
    match made {
        Ok(image) => Ok(image),
        Err(_) => Err(Fault::Misspelled),
    }
}

fn needs(alloc: Global, words: &str) -> Result<Vec<Need>, Fault> {
    let mut needs = Vec::new(alloc);
    for word in words.split(',') {
        if let Some((hardware, release)) = word.split_once(':') {
            needs.push(need(alloc, hardware, release)?)?;
        }
    }
    Ok(needs)
}

fn need(alloc: Global, hardware: &str, release: &str) -> Result<Need, Fault> {
    Ok(Need {
        hardware: ident(alloc, hardware)?,
        release: count(release)?,
    })
}

/// Images as they are told, with ` ; ` between.
pub(crate) fn images_text(alloc: Global, images: &[Image]) -> Result<String, AllocError> {
    let mut out = String::new(alloc);
    for image in images {
        push_part(&mut out)?;
        push_image(alloc, &mut out, image)?;
    }
    Ok(out)
}

/// An image as it is told.
pub(crate) fn image_text(alloc: Global, image: &Image) -> Result<String, AllocError> {
    let mut out = String::new(alloc);
    push_image(alloc, &mut out, image)?;
    Ok(out)
}

fn push_image(alloc: Global, out: &mut String, image: &Image) -> Result<(), AllocError> {
    push_word(out, image.file.text())?;
    push_number(alloc, out, image.length.get())?;
    push_hashes(alloc, out, image)?;
    push_idents(alloc, out, image.hardware.as_slice())?;
    push_number(alloc, out, image.release.get())?;
    push_needs(alloc, out, image.needs.as_slice())?;
    push_file_names(alloc, out, image.conflicts.as_slice())
}

fn push_hashes(alloc: Global, out: &mut String, image: &Image) -> Result<(), AllocError> {
    let digits = hashes_digits(alloc, &image.sha256, &image.sha512)?;
    push_word(out, digits.as_str())
}

fn push_needs(alloc: Global, out: &mut String, needs: &[Need]) -> Result<(), AllocError> {
    let mut list = String::new(alloc);
    for need in needs {
        let (hardware, release) = (need.hardware.text(), need.release.get());
        let words = format!(in alloc; "{hardware}:{release}")?;
        push_item(&mut list, words.as_str())?;
    }
    push_list(out, list.as_str())
}
