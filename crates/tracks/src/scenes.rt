//! What the parts of the picture show: the match, and each of its robots.

use crate::ink::{Period, add_name};
use crate::matches::{Recording, Track};
use crate::requests::Request;
use std::alloc::{AllocError, Global};
use tools::{Draft, Text, file_of, name_of};

/// A match that was recorded, with what is asked for of it and the updates that are drawn.
#[derive(Drop)]
pub struct Scene<'a> {
    /// What is asked for.
    pub request: &'a Request<'a>,
    /// What is recorded.
    pub recording: &'a Recording,
    /// The updates that are drawn.
    pub period: Period,
    /// Its robots, in order.
    pub robots: Vec<Robot<'a>>,
}

impl<'a> Scene<'a> {
    /// Takes what is asked for of a match that was recorded.
    pub fn of(
        alloc: Global,
        request: &'a Request<'a>,
        recording: &'a Recording,
    ) -> Result<Scene<'a>, AllocError> {
        let mut robots = Vec::new(alloc);
        for (index, track) in recording.tracks.as_slice().iter().enumerate() {
            let name = name_of(file_of(&request.wish, index));
            robots.push(Robot { index, name, track })?;
        }
        Ok(Scene {
            request,
            recording,
            period: Period::of(request.view, recording),
            robots,
        })
    }
}

/// A robot of the picture.
#[derive(Clone, Copy)]
pub struct Robot<'a> {
    /// Its number, from 0.
    pub index: usize,
    /// The name of its file.
    pub name: &'a str,
    /// What is recorded of it.
    pub track: &'a Track,
}

impl Robot<'_> {
    /// Returns its number as texts have it, from 1.
    pub fn number(&self) -> usize {
        self.index.saturating_add(1)
    }

    /// Adds its number and its name as a title.
    pub fn add_title(&self, text: &mut Draft) {
        write!(text, "<title>{}) ", self.number());
        add_name(text, self.name);
        text.add("</title>");
    }
}
