// Images that are sound and images that are not, checked, loaded and made; and the disk that fails at each call.
mod conditions;
mod images;
mod loading;
mod making;
