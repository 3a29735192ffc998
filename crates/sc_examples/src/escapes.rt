use std::alloc::{AllocError, Global};

/// The text of a question's arguments.
pub fn read(alloc: Global, arguments: &str) -> Result<String, AllocError> {
    let mut text = String::new(alloc);
    for (i, part) in arguments.split("\\{").enumerate() {
        push_part(alloc, &mut text, part, i > 0)?;
    }
    Ok(text)
}

/// Puts a part at the end, which begins inside of `\{` and `}` where it is opened.
fn push_part(alloc: Global, text: &mut String, part: &str, opened: bool) -> Result<(), AllocError> {
    match part.split_once('}') {
        Some((inside, after)) if opened => {
            push_escaped(alloc, text, inside)?;
            text.push_str(after)
        }
        _ => text.push_str(part),
    }
}

/// Puts what stands for `\{inside}` at the end.
fn push_escaped(alloc: Global, text: &mut String, inside: &str) -> Result<(), AllocError> {
    if let Some((count, repeated)) = inside.split_once('*') {
        let count = count.parse::<usize>().unwrap_or(0).min(1_000_000);
        return text.push_str(repeated.repeat(alloc, count)?.as_str());
    }
    let number = u32::from_str_radix(inside, 16).unwrap_or(0);
    text.push(char::from_u32(number).unwrap_or('?'))
}

/// The answer's text in printable ASCII characters.
pub fn shown(alloc: Global, answer: &str) -> Result<String, AllocError> {
    let mut text = String::new(alloc);
    for letter in answer.chars() {
        push_letter(alloc, &mut text, letter)?;
    }
    Ok(text)
}

/// Puts a character at the end, or its number where it is no printable ASCII character.
fn push_letter(alloc: Global, text: &mut String, letter: char) -> Result<(), AllocError> {
    if matches!(letter, ' '..='~') {
        return text.push(letter);
    }
    let number = format!(in alloc; "\\{{{:x}}}", u32::from(letter))?;
    text.push_str(number.as_str())
}
